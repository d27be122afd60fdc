//! Writes single lines.
ghost use Rattle.std.specs.Prelude.{◌≡◌, ◌++◌, ◌∷◌, codes, decimal, OnOk};
ghost use Rattle.std.specs.List.{join_with_byte};
ghost use Rattle.std.specs.String.{string_bytes};
ghost use Rattle.schedule_file.specs.declared.lines.Line.TheVariants.{Declares, Directs};
ghost use Rattle.schedule_file.specs.declared.lines.Declaration.TheVariants.{Transient};
ghost use Rattle.schedule_file.specs.Spelling.{prefix_text};
ghost use Rattle.schedule_file.specs.Lines.{rest_words, line_words};
ghost use Rattle.schedule_file.specs.Printing.{spaced, line_text};

use crate::directives::{Directive, Rest};
use crate::lines::{Declaration, Line};
use crate::table::{SchemeName, relation_word};
use itoa::Buffer;
use std::alloc::AllocError;
use topology::{NodeId, Prefix, Scheme};

// Adds the digits of a number.
fn push_digits(out: &mut String, number: u32) -> Result<(), AllocError>
    ensures { OnOk result (string_bytes out.new ≡ string_bytes out.old ++ decimal number) }
{
    let mut digits = Buffer::new();
    out.push_str(digits.format(number))
}

// Adds a space and a word.
fn push_word(out: &mut String, word: &str) -> Result<(), AllocError>
    ensures { OnOk result (string_bytes out.new ≡ string_bytes out.old ++ 32 ∷ word.now) }
{
    out.push(' ')?;
    out.push_str(word)
}

// Adds a space and a number.
fn push_number(out: &mut String, number: u32) -> Result<(), AllocError>
    ensures { OnOk result (string_bytes out.new ≡ string_bytes out.old ++ 32 ∷ decimal number) }
{
    out.push(' ')?;
    push_digits(out, number)
}

// Adds a space and the number of a node.
fn push_node(out: &mut String, node: NodeId) -> Result<(), AllocError>
    ensures { OnOk result (string_bytes out.new ≡ string_bytes out.old ++ 32 ∷ decimal node) }
{
    push_number(out, u32::from(node.number()))
}

// Adds two numbers, joined by a point.
fn two_numbers(out: &mut String, first: u32, second: u32) -> Result<(), AllocError>
    ensures { OnOk result (string_bytes out.new ≡ string_bytes out.old ++ decimal first ++ codes "." ++ decimal second) }
{
    push_digits(out, first)?;
    out.push('.')?;
    push_digits(out, second)
}

// Adds a space and a prefix.
#[tactic(auto, unfolding(crate::specs::Spelling::prefix_text))]
fn push_prefix(out: &mut String, prefix: &Prefix) -> Result<(), AllocError>
    ensures { OnOk result (string_bytes out.new ≡ string_bytes out.old ++ 32 ∷ prefix_text prefix.now) }
{
    out.push(' ')?;
    two_numbers(
        out,
        prefix.bits / 16_777_216 % 256,
        prefix.bits / 65_536 % 256,
    )?;
    out.push('.')?;
    two_numbers(out, prefix.bits / 256 % 256, prefix.bits % 256)?;
    out.push('/')?;
    push_digits(out, u32::from(prefix.len))
}

// Adds two nodes, a space before each.
fn push_nodes(out: &mut String, a: NodeId, b: NodeId) -> Result<(), AllocError>
    ensures { OnOk result (string_bytes out.new ≡ string_bytes out.old ++ 32 ∷ decimal a ++ 32 ∷ decimal b) }
{
    push_node(out, a)?;
    push_node(out, b)
}

// Adds two nodes and a value, a space before each.
fn push_preference(out: &mut String, a: NodeId, b: NodeId, value: u32) -> Result<(), AllocError>
    ensures { OnOk result (string_bytes out.new
        ≡ string_bytes out.old ++ 32 ∷ decimal a ++ 32 ∷ decimal b ++ 32 ∷ decimal value) }
{
    push_nodes(out, a, b)?;
    push_number(out, value)
}

// Adds a word and a number, a space before each.
fn push_named(out: &mut String, word: &str, number: u32) -> Result<(), AllocError>
    ensures { OnOk result (string_bytes out.new
        ≡ string_bytes out.old ++ 32 ∷ word.now ++ 32 ∷ decimal number) }
{
    push_word(out, word)?;
    push_number(out, number)
}

// Adds the words that set a scheme.
fn push_scheme(out: &mut String, scheme: &Scheme) -> Result<(), AllocError>
    ensures { OnOk result (string_bytes out.new
        ≡ string_bytes out.old ++ join_with_byte 32 (line_words (Declares (Transient scheme.now)))) }
{
    out.push_str("transient")?;
    match scheme {
        Scheme::Deflect => push_word(out, SchemeName::Deflect.word()),
        Scheme::Detour(node) => {
            push_named(out, SchemeName::Detour.word(), u32::from(node.number()))
        }
        Scheme::Backup => push_word(out, SchemeName::Backup.word()),
    }
}

// Adds the words of a declaration.
fn push_declaration(out: &mut String, declaration: &Declaration) -> Result<(), AllocError>
    ensures { OnOk result (string_bytes out.new
        ≡ string_bytes out.old ++ join_with_byte 32 (line_words (Declares declaration.now))) }
{
    match declaration {
        Declaration::Node { id, consolidator } => {
            out.push_str("node")?;
            push_node(out, *id)?;
            if *consolidator {
                push_word(out, "consolidator")?;
            }
            Ok(())
        }
        Declaration::Link { a, b, relation } => {
            out.push_str("link")?;
            push_nodes(out, *a, *b)?;
            push_word(out, relation_word(*relation))
        }
        Declaration::Pref { a, b, value } => {
            out.push_str("pref")?;
            push_preference(out, *a, *b, *value)
        }
        Declaration::Hold { a, b } => {
            out.push_str("hold")?;
            push_nodes(out, *a, *b)
        }
        Declaration::Prefix { prefix } => {
            out.push_str("prefix")?;
            push_prefix(out, prefix)
        }
        Declaration::Hops { hops } => {
            out.push_str("hops")?;
            push_number(out, u32::from(*hops))
        }
        Declaration::Transient { scheme } => push_scheme(out, scheme),
    }
}

// Adds what follows the first word of a directive's line.
fn push_rest(out: &mut String, rest: &Rest<Prefix>) -> Result<(), AllocError>
    ensures { OnOk result (string_bytes out.new ≡ string_bytes out.old ++ spaced (rest_words rest.now)) }
{
    match rest {
        Rest::Origin(node, prefix) => {
            push_node(out, *node)?;
            push_prefix(out, prefix)
        }
        Rest::Single(node) => push_node(out, *node),
        Rest::Pair(a, b) => push_nodes(out, *a, *b),
        Rest::Prefer(node, nbr, value) => push_preference(out, *node, *nbr, *value),
        Rest::Propose(node, epoch) => {
            push_node(out, *node)?;
            push_number(out, epoch.number())
        }
        Rest::Drain(number) | Rest::Control(number) | Rest::Hop(number, None) => {
            push_number(out, *number)
        }
        Rest::ControlAll(times) => push_named(out, "all", *times),
        Rest::Inject(packet, node, prefix) => {
            push_number(out, *packet)?;
            push_node(out, *node)?;
            push_prefix(out, prefix)
        }
        Rest::Hop(packet, Some(times)) => {
            push_number(out, *packet)?;
            push_number(out, *times)
        }
        Rest::Show(view) => push_word(out, view.word()),
        Rest::ShowEpoch(view, epoch) => push_named(out, view.word(), epoch.number()),
        Rest::ShowWalk(packet) => push_named(out, "walk", *packet),
    }
}

// Adds the words of a directive.
fn push_directive(out: &mut String, directive: &Directive<Prefix>) -> Result<(), AllocError>
    ensures { OnOk result (string_bytes out.new
        ≡ string_bytes out.old ++ join_with_byte 32 (line_words (Directs directive.now))) }
{
    let (word, rest) = directive.spelling();
    out.push_str(word)?;
    push_rest(out, &rest)
}

/// Adds the line, with one space between its words, and a newline.
pub fn push_line(out: &mut String, line: &Line) -> Result<(), AllocError>
    ensures { OnOk result (string_bytes out.new ≡ string_bytes out.old ++ line_text line.now) }
{
    match line {
        Line::Blank => {}
        Line::Begin => out.push_str("begin")?,
        Line::Declares(declaration) => push_declaration(out, declaration)?,
        Line::Directs(directive) => push_directive(out, directive)?,
    }
    out.push('\n')
}
