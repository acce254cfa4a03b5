ghost use Rattle.std.specs.Prelude.{◌≡◌, ◌<◌, ◌≤◌, ◌^◌, ◌++◌, ◌*◌, replicate, IfOk, OnOk, IsTrue};
ghost use Rattle.std.specs.List.{list_all};
ghost use Rattle.std.specs.Char.{is_ascii};
ghost use Rattle.ch_lex.specs.Signs.{sign_text};
ghost use Rattle.ch_nestprint.specs.Layouts.{blank_if, depth_after, depth_before, ends_line};
ghost use Rattle.ch_nestprint.specs.Layouts.{ends_operand, first_layout, gap, gap_if};
ghost use Rattle.ch_nestprint.specs.Layouts.{in_head_after, is_tight, is_tight_before};
ghost use Rattle.ch_nestprint.specs.Layouts.{is_tight_behind, layout_after, may_go_on};
ghost use Rattle.ch_nestprint.specs.Layouts.{new_line, spell, symbol_text};

use crate::symbol::Symbol;
use ch_affine::Text;
use ch_lex::{Keyword, Sign};
use ch_print::put_number;
use std::alloc::{AllocError, Global};

/// What is known of the symbols before a place.
#[derive(Clone, Copy, Debug)]
pub struct Layout {
    /// How many braces are open.
    pub depth: usize,
    /// Whether the place is in a loop's head.
    pub in_head: bool,
    /// Whether an operand may have ended here.
    pub after_operand: bool,
}

impl Layout {
    fn after(self, symbol: &Symbol) -> Layout
        requires { self.depth < 2 ^ 60 }
        ensures { result ≡ layout_after self symbol.now }
    {
        Layout {
            depth: depth_after(self.depth, symbol),
            in_head: in_head_after(self.in_head, symbol),
            after_operand: ends_operand(symbol),
        }
    }
}

fn depth_after(depth: usize, symbol: &Symbol) -> usize
    requires { depth < 2 ^ 60 }
    ensures { result ≡ depth_after depth symbol.now }
{
    match symbol {
        Symbol::Mark(Sign::LeftBrace) => depth + 1,
        Symbol::Mark(Sign::RightBrace) => depth.saturating_sub(1),
        _ => depth,
    }
}

fn depth_before(depth: usize, symbol: &Symbol) -> usize
    ensures { result ≡ depth_before depth symbol.now }
{
    match symbol {
        Symbol::Mark(Sign::RightBrace) => depth.saturating_sub(1),
        _ => depth,
    }
}

fn in_head_after(in_head: bool, symbol: &Symbol) -> bool
    ensures { result ≡ in_head_after in_head symbol.now }
{
    match symbol {
        Symbol::Key(Keyword::For) => true,
        Symbol::Mark(Sign::LeftBrace) => false,
        _ => in_head,
    }
}

fn ends_operand(symbol: &Symbol) -> bool
    ensures { result ≡ ends_operand symbol.now }
{
    matches!(
        symbol,
        Symbol::Name(_)
            | Symbol::Number(_)
            | Symbol::Mark(Sign::RightBracket)
            | Symbol::Mark(Sign::RightParen)
    )
}

fn ends_line(in_head: bool, symbol: &Symbol) -> bool
    ensures { result ≡ ends_line in_head symbol.now }
{
    match symbol {
        Symbol::Mark(Sign::LeftBrace) | Symbol::Mark(Sign::RightBrace) => true,
        Symbol::Mark(Sign::Semicolon) => !in_head,
        _ => false,
    }
}

fn is_tight_behind(after_operand: bool, symbol: &Symbol) -> bool
    ensures { result ≡ is_tight_behind after_operand symbol.now }
{
    match symbol {
        Symbol::Mark(Sign::LeftParen)
        | Symbol::Mark(Sign::LeftBracket)
        | Symbol::Mark(Sign::Star) => true,
        Symbol::Mark(Sign::Minus) => !after_operand,
        _ => false,
    }
}

fn is_tight_before(symbol: &Symbol) -> bool
    ensures { result ≡ is_tight_before symbol.now }
{
    matches!(
        symbol,
        Symbol::Mark(Sign::LeftBracket)
            | Symbol::Mark(Sign::RightBracket)
            | Symbol::Mark(Sign::RightParen)
            | Symbol::Mark(Sign::Comma)
            | Symbol::Mark(Sign::Semicolon)
            | Symbol::Mark(Sign::Star)
            | Symbol::Mark(Sign::Increment)
    )
}

/// Whether a longer sign may begin with this one.
fn may_go_on(symbol: &Symbol) -> bool
    ensures { result ≡ may_go_on symbol.now }
{
    matches!(
        symbol,
        Symbol::Mark(Sign::Less) | Symbol::Mark(Sign::More) | Symbol::Mark(Sign::Plus)
    )
}

fn is_tight(after_operand: bool, symbol: &Symbol, next: &Symbol) -> bool
    ensures { result ≡ is_tight after_operand symbol.now next.now }
{
    !may_go_on(symbol) && (is_tight_behind(after_operand, symbol) || is_tight_before(next))
}

fn sign_text(sign: Sign) -> &'static [u8]
    ensures value { result.now ≡ sign_text sign }
    ensures ascii { IsTrue (list_all is_ascii result.now) }
{
    match sign {
        Sign::LeftParen => b"(",
        Sign::RightParen => b")",
        Sign::LeftBracket => b"[",
        Sign::RightBracket => b"]",
        Sign::LeftBrace => b"{",
        Sign::RightBrace => b"}",
        Sign::Comma => b",",
        Sign::Semicolon => b";",
        Sign::Plus => b"+",
        Sign::Minus => b"-",
        Sign::Star => b"*",
        Sign::Equals => b"=",
        Sign::Less => b"<",
        Sign::AtMost => b"<=",
        Sign::More => b">",
        Sign::AtLeast => b">=",
        Sign::Increment => b"++",
    }
}

#[tactic(auto, using(crate::proofs::Spelled::keyword_ascii))]
fn put_symbol(out: &mut Text, symbol: &Symbol) -> Result<(), AllocError>
    ensures { OnOk result (out.new ≡ out.old ++ symbol_text symbol.now) }
{
    match symbol {
        Symbol::Name(text) => out.append(text.as_bytes()),
        Symbol::Number(value) => put_number(out, *value),
        Symbol::Key(word) => out.append(word.text()),
        Symbol::Mark(sign) => out.append(sign_text(*sign)),
    }
}

fn put_line(out: &mut Text, depth: usize) -> Result<(), AllocError>
    ensures { OnOk result (out.new ≡ out.old ++ new_line depth) }
{
    out.push(b'\n')?;
    for _level in 0..depth {
        out.append(b"    ")?;
    }
    Ok(())
}

fn put_blank(out: &mut Text, tight: bool) -> Result<(), AllocError>
    ensures { OnOk result (out.new ≡ out.old ++ blank_if tight) }
{
    if tight {
        return Ok(());
    }
    out.push(b' ')
}

fn put_between(out: &mut Text, ends: bool, tight: bool, depth: usize) -> Result<(), AllocError>
    ensures { OnOk result (out.new ≡ out.old ++ gap_if ends tight depth) }
{
    if ends {
        put_line(out, depth)
    } else {
        put_blank(out, tight)
    }
}

/// Adds the gap between a symbol and those after it.
fn put_gap(
    out: &mut Text,
    layout: Layout,
    symbol: &Symbol,
    rest: &[Symbol],
) -> Result<(), AllocError>
    requires { layout.depth < 2 ^ 60 }
    ensures { OnOk result (out.new ≡ out.old ++ gap layout symbol.now rest.now) }
{
    match rest {
        [] => out.push(b'\n'),
        [next, ..] => {
            let ends = ends_line(layout.in_head, symbol);
            let tight = is_tight(layout.after_operand, symbol, next);
            let depth = depth_before(depth_after(layout.depth, symbol), next);
            put_between(out, ends, tight, depth)
        }
    }
}

/// The text of these symbols.
#[tactic(auto, unfolding(crate::specs::Layouts::spell), using(crate::proofs::Spelled::one_more))]
pub fn spell(alloc: Global, symbols: &[Symbol]) -> Result<Text, AllocError>
    ensures { IfOk result (λ text. text ≡ spell first_layout symbols.now) }
{
    let mut out = Text::new(alloc);
    let mut layout = Layout {
        depth: 0,
        in_head: false,
        after_operand: false,
    };
    for (i, symbol) in symbols.iter().enumerate() {
        put_symbol(&mut out, symbol)?;
        put_gap(&mut out, layout, symbol, &symbols[i + 1..])?;
        layout = layout.after(symbol);
    }
    Ok(out)
}
