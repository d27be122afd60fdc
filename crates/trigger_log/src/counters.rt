//! Counters with a highest value.
ghost use Rattle.std.specs.Prelude.{◌≡◌, ◌↔◌, suc, IsErr, IfOk};

use topology::NoMemory;

/// The next number. The error comes exactly where `count` is the highest number of four bytes.
pub fn next_number(count: u32) -> Result<u32, NoMemory>
    ensures next { IfOk result (λ next. next ≡ suc count) }
    ensures last { IsErr result ↔ (count ≡ 4294967295) }
{
    match count.checked_add(1) {
        None => Err(NoMemory),
        Some(next) => Ok(next),
    }
}
