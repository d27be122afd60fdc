//! The files of a case. Each is named by the case, a point, and what the file holds.
use anyhow::Result;
use std::fs;
use std::io::ErrorKind;
use std::rt::Files;

/// The bytes of this file of the case; `None` if there is no such file.
pub fn bytes_of<R: Files + AllocGlobal>(
    rt: &R,
    name: &str,
    ending: &str,
) -> Result<Option<Vec<u8>>> {
    let path = format!(in rt.alloc(); "{name}.{ending}")?;
    match fs::read(rt, path.as_str()) {
        Ok(bytes) => Ok(Some(bytes)),
        Err(error) if error.kind() == ErrorKind::NotFound => Ok(None),
        Err(error) => Err(error.into()),
    }
}

/// The text of this file of the case; `None` if there is no such file.
pub fn text_of<R: Files + AllocGlobal>(rt: &R, name: &str, ending: &str) -> Result<Option<String>> {
    match bytes_of(rt, name, ending)? {
        Some(bytes) => Ok(Some(String::from_utf8(bytes)?)),
        None => Ok(None),
    }
}

/// The text of this file of the case, or `otherwise` if there is no such file.
pub fn text_or<R: Files + AllocGlobal>(
    rt: &R,
    name: &str,
    ending: &str,
    otherwise: &str,
) -> Result<String> {
    match text_of(rt, name, ending)? {
        Some(text) => Ok(text),
        None => Ok(String::from_str(rt.alloc(), otherwise)?),
    }
}
