//! What the words of the program may ask for.
ghost use Rattle.std.specs.Prelude.{◌≡◌, ◌≢◌, ◌≤◌, ℕ, [], ◌∷◌, IfSome, IfNone, map};
ghost use Rattle.std.specs.Fmt.{decimal};
ghost use Rattle.std.specs.String.{string_bytes};
ghost use Rattle.routing_commands.specs.Forms.{HasNoForm, IsForm};

use text_lines::read_number;
use topology::NodeId;
use topology::limits::{HIGHEST_LOAD, HIGHEST_NODE};

/// What is asked for.
#[derive(Clone, Copy, Debug, PartialEq, Eq)]
pub enum Form<'a> {
    /// The schedule that the source holds.
    Replay,
    /// The load of this number.
    Load(u32),
    /// The node with this number, over a link to this address.
    Node(NodeId, &'a str),
    /// The node with this number, over a link to this address, which keeps the frames that it takes in this file.
    KeptNode(NodeId, &'a str, &'a str),
    /// The audit of the printed tables that the source holds.
    Audit,
    /// The script of members that the source holds.
    Lead,
}

/// What the words ask for. None exactly where they are of no form.
pub fn form_of(words: &[String]) -> Option<Form<'_>>
    ensures some { IfSome result (λ form. IsForm (map (λ word. string_bytes word) words.now) form) }
    ensures none { IfNone result (HasNoForm (map (λ word. string_bytes word) words.now)) }
{
    match words {
        [] => None,
        [word] => plain_form(word.as_str()),
        [word, number] => load_form(word.as_str(), number.as_str()),
        [word, number, address] => node_form(word.as_str(), number.as_str(), address.as_str()),
        [word, number, address, file] => kept_form(
            word.as_str(),
            number.as_str(),
            address.as_str(),
            file.as_str(),
        ),
        _ => None,
    }
}

// The form of one word.
fn plain_form<'a>(word: &str) -> Option<Form<'a>>
    ensures some { IfSome result (λ form. IsForm (word.now ∷ []) form) }
    ensures none { IfNone result (HasNoForm (word.now ∷ [])) }
{
    if word == "replay" {
        return Some(Form::Replay);
    }
    if word == "audit" {
        return Some(Form::Audit);
    }
    if word == "lead" {
        return Some(Form::Lead);
    }
    None
}

// The form of a word and a number.
fn load_form<'a>(word: &str, number: &str) -> Option<Form<'a>>
    ensures some { IfSome result (λ form. IsForm (word.now ∷ number.now ∷ []) form) }
    ensures none { IfNone result (HasNoForm (word.now ∷ number.now ∷ [])) }
{
    if word == "load" {
        return match read_number(number.as_bytes(), HIGHEST_LOAD) {
            Some(number) => Some(Form::Load(number)),
            None => None,
        };
    }
    None
}

// The number of a node. None exactly where the word spells none.
fn node_number(word: &str) -> Option<NodeId>
    ensures some { IfSome result (λ node. (word.now ≡ decimal node) × (1 ≤ node) × (node ≤ HIGHEST_NODE)) }
    ensures none { IfNone result ((n : ℕ) → 1 ≤ n → n ≤ HIGHEST_NODE → word.now ≢ decimal n) }
{
    let Some(number) = read_number(word.as_bytes(), HIGHEST_NODE) else {
        return None;
    };
    if number == 0 {
        return None;
    }
    Some(NodeId::new(number as u16))
}

// The form of a word, a number and an address.
fn node_form<'a>(word: &str, number: &str, address: &'a str) -> Option<Form<'a>>
    ensures some { IfSome result (λ form. IsForm (word.now ∷ number.now ∷ address.now ∷ []) form) }
    ensures none { IfNone result (HasNoForm (word.now ∷ number.now ∷ address.now ∷ [])) }
{
    if word == "node" {
        return match node_number(number) {
            Some(node) => Some(Form::Node(node, address)),
            None => None,
        };
    }
    None
}

// The form of a word, a number, an address and the name of a file.
fn kept_form<'a>(word: &str, number: &str, address: &'a str, file: &'a str) -> Option<Form<'a>>
    ensures some { IfSome result (λ form. IsForm (word.now ∷ number.now ∷ address.now ∷ file.now ∷ []) form) }
    ensures none { IfNone result (HasNoForm (word.now ∷ number.now ∷ address.now ∷ file.now ∷ [])) }
{
    if word == "node" {
        return match node_number(number) {
            Some(node) => Some(Form::KeptNode(node, address, file)),
            None => None,
        };
    }
    None
}
