ghost use Rattle.std.specs.Prelude.{◌≡◌, ◌<◌, ◌++◌, suc, false, length, map, OnOk, IfOk, IsTrue};
ghost use Rattle.std.specs.List.{flat_map};
ghost use Rattle.ch_code.specs.LoopText.{for_text, if_text};
ghost use Rattle.ch_code.specs.CodeText.{array_line, brace_lead, braced_text, buffer_line, buffer_lines, code_text, escaped, extent_text, instance_text, lead, leaf_text, level_of, margin, more_origins_text, name_text, origin_text, origins_text, place_text, quoted, unit_text};
ghost use Rattle.ch_code.specs.UnitParts.{UnitParts, unit_of};

use crate::bodies::put_body;
use crate::code::{Bound, Code, Unit};
use crate::forms::{LOOPED, ORIGINAL, put_form, put_variable};
use crate::heads::{put_for, put_if};
use crate::names::{Names, is_plain};
use ch_affine::{Aff, List, System, Text};
use ch_nest::{ArrayDecl, Body};
use ch_print::{put_buffer, put_label, put_number};
use ch_timed::Label;
use std::alloc::{AllocError, Global};

#[tactic(auto, unfolding(crate::specs::CodeText::origin_text))]
fn put_origin(out: &mut Text, around: usize, number: usize, form: &Aff) -> Result<(), AllocError>
    ensures { OnOk result (out.new ≡ out.old ++ origin_text around number form.now) }
{
    put_variable(out, ORIGINAL, number as u64)?;
    out.append(b" = ")?;
    put_form(out, LOOPED, around, form)
}

#[tactic(auto, using(crate::proofs::Steps::origins_more))]
fn put_origins(out: &mut Text, around: usize, origin: &[Aff]) -> Result<(), AllocError>
    ensures { OnOk result (out.new ≡ out.old ++ origins_text around origin.now) }
{
    let Some((first, rest)) = origin.split_first() else {
        return Ok(());
    };
    put_origin(out, around, 1, first)?;
    for (k, form) in rest.iter().enumerate() {
        out.append(b", ")?;
        put_origin(out, around, k + 2, form)?;
    }
    Ok(())
}

fn put_places(out: &mut Text, places: &[u32]) -> Result<(), AllocError>
    ensures { OnOk result (out.new ≡ out.old ++ flat_map place_text places.now) }
{
    for place in places {
        out.append(b" ")?;
        put_number(out, u64::from(*place))?;
    }
    Ok(())
}

#[tactic(auto, unfolding(crate::specs::CodeText::instance_text))]
fn put_instance(
    out: &mut Text,
    around: usize,
    label: Label,
    origin: &[Aff],
) -> Result<(), AllocError>
    ensures { OnOk result (out.new ≡ out.old ++ instance_text around label origin.now) }
{
    put_label(out, label)?;
    out.append(b"(")?;
    put_origins(out, around, origin)?;
    out.append(b")")
}

/// Adds a statement inside this many loops.
#[tactic(auto, unfolding(crate::specs::CodeText::leaf_text))]
fn put_leaf(
    out: &mut Text,
    names: &Names,
    around: usize,
    label: Label,
    body: &Body,
    origin: &[Aff],
    places: &[u32],
) -> Result<(), AllocError>
    ensures { OnOk result
        (out.new ≡ out.old ++ leaf_text names.now around label body.now origin.now places.now) }
{
    put_instance(out, around, label, origin)?;
    out.append(b" at")?;
    put_places(out, places)?;
    out.append(b": ")?;
    put_body(out, names, origin.len(), body)?;
    out.append(b"\n")
}

#[tactic(auto, using(crate::proofs::Steps::margin_more))]
fn put_margin(out: &mut Text, level: usize) -> Result<(), AllocError>
    ensures { OnOk result (out.new ≡ out.old ++ margin level) }
{
    for _k in 0..level {
        out.append(b"  ")?;
    }
    Ok(())
}

/// One more, where it fits. So many levels have no room in any memory.
fn next(count: usize) -> Result<usize, AllocError>
    ensures { IfOk result (λ next. next ≡ suc count) }
{
    count.checked_add(1).ok_or(AllocError)
}

/// Where code stands: behind a head or on a line of its own, the level of the line, and how many
/// loops are around it.
#[derive(Clone, Copy)]
struct Spot {
    behind: bool,
    level: usize,
    around: usize,
}

/// Begins a line where code stands on one of its own, and gives its level.
fn put_lead(out: &mut Text, spot: Spot) -> Result<usize, AllocError>
    ensures added { OnOk result (out.new ≡ out.old ++ lead spot.behind spot.level) }
    ensures level { IfOk result (λ own. own ≡ level_of spot.behind spot.level) }
{
    if !spot.behind {
        put_margin(out, spot.level)?;
        return Ok(spot.level);
    }
    let own = next(spot.level)?;
    out.append(b"\n")?;
    put_margin(out, own)?;
    Ok(own)
}

fn put_brace_lead(out: &mut Text, spot: Spot) -> Result<(), AllocError>
    ensures { OnOk result (out.new ≡ out.old ++ brace_lead spot.behind spot.level) }
{
    if spot.behind {
        out.append(b" ")
    } else {
        put_margin(out, spot.level)
    }
}

/// Adds a loop's head, and gives where the code inside it stands.
fn put_loop_head(
    out: &mut Text,
    number: u32,
    lows: &[Bound],
    highs: &[Bound],
    spot: Spot,
) -> Result<Spot, AllocError>
    ensures added { OnOk result
        (out.new
        ≡ out.old ++ lead spot.behind spot.level
        ++ for_text spot.around number lows.now highs.now) }
    ensures behind { IfOk result (λ inside. IsTrue inside.behind) }
    ensures level { IfOk result (λ inside. inside.level ≡ level_of spot.behind spot.level) }
    ensures around { IfOk result (λ inside. inside.around ≡ suc spot.around) }
{
    let level = put_lead(out, spot)?;
    put_for(out, spot.around, number, lows, highs)?;
    let around = next(spot.around)?;
    Ok(Spot {
        behind: true,
        level,
        around,
    })
}

/// Adds a guard's head, and gives where the code inside it stands.
fn put_guard_head(out: &mut Text, system: &System, spot: Spot) -> Result<Spot, AllocError>
    ensures added { OnOk result
        (out.new ≡ out.old ++ lead spot.behind spot.level ++ if_text spot.around system.now) }
    ensures behind { IfOk result (λ inside. IsTrue inside.behind) }
    ensures level { IfOk result (λ inside. inside.level ≡ level_of spot.behind spot.level) }
    ensures around { IfOk result (λ inside. inside.around ≡ spot.around) }
{
    let level = put_lead(out, spot)?;
    put_if(out, spot.around, system)?;
    Ok(Spot {
        behind: true,
        level,
        around: spot.around,
    })
}

/// Adds code where it stands.
#[cycle(code)]
#[tactic(auto, using(crate::proofs::Rolls::seq_is, crate::proofs::Rolls::loop_is, crate::proofs::Rolls::guard_is, crate::proofs::Rolls::leaf_is))]
fn put_code(out: &mut Text, names: &Names, code: &Code, spot: Spot) -> Result<(), AllocError>
    ensures { OnOk result
        (out.new ≡ out.old ++ code_text names.now code.now spot.behind spot.level spot.around) }
{
    match code {
        Code::Seq(parts) => {
            put_brace_lead(out, spot)?;
            put_parts(out, names, parts.as_slice(), spot.level, spot.around)
        }
        Code::Loop {
            level,
            lows,
            highs,
            inner,
        } => {
            let inside = put_loop_head(out, *level, lows.as_slice(), highs.as_slice(), spot)?;
            put_code(out, names, inner.get(), inside)
        }
        Code::Guard { system, inner } => {
            let inside = put_guard_head(out, system, spot)?;
            put_code(out, names, inner.get(), inside)
        }
        Code::Leaf {
            label,
            body,
            origin,
            places,
        } => {
            let _ = put_lead(out, spot)?;
            let (origin, places) = (origin.as_slice(), places.as_slice());
            put_leaf(out, names, spot.around, *label, body, origin, places)
        }
    }
}

/// Adds parts between braces, of which the second stands at this level.
#[cycle(code)]
#[tactic(auto, using(crate::proofs::Steps::parts_more))]
fn put_parts(
    out: &mut Text,
    names: &Names,
    parts: &[Code],
    level: usize,
    around: usize,
) -> Result<(), AllocError>
    ensures { OnOk result
        (out.new ≡ out.old ++ braced_text (map (code_text names.now) parts.now) level around) }
{
    out.append(b"{\n")?;
    let spot = Spot {
        behind: false,
        level: next(level)?,
        around,
    };
    for part in parts {
        put_code(out, names, part, spot)?;
    }
    put_margin(out, level)?;
    out.append(b"}\n")
}

fn put_escaped(out: &mut Text, byte: u8) -> Result<(), AllocError>
    requires { byte < 128 }
    ensures { OnOk result (out.new ≡ out.old ++ escaped byte) }
{
    if byte == b'"' || byte == b'\\' {
        out.append(b"\\")?;
    }
    out.push(byte)
}

fn put_quoted(out: &mut Text, name: &Text) -> Result<(), AllocError>
    ensures { OnOk result (out.new ≡ out.old ++ quoted name.now) }
{
    out.append(b"\"")?;
    for byte in name.as_bytes() {
        put_escaped(out, *byte)?;
    }
    out.append(b"\"")
}

fn put_name(out: &mut Text, name: &Text) -> Result<(), AllocError>
    ensures { OnOk result (out.new ≡ out.old ++ name_text name.now) }
{
    if is_plain(name.as_bytes()) {
        return out.append(name.as_bytes());
    }
    put_quoted(out, name)
}

fn put_extents(out: &mut Text, extents: &[u32]) -> Result<(), AllocError>
    ensures { OnOk result (out.new ≡ out.old ++ flat_map extent_text extents.now) }
{
    for extent in extents {
        out.append(b"[")?;
        put_number(out, u64::from(*extent))?;
        out.append(b"]")?;
    }
    Ok(())
}

#[tactic(auto, unfolding(crate::specs::CodeText::array_line))]
fn put_array_line(out: &mut Text, array: &ArrayDecl) -> Result<(), AllocError>
    ensures { OnOk result (out.new ≡ out.old ++ array_line array.now) }
{
    out.append(b"array ")?;
    put_name(out, &array.name)?;
    put_extents(out, array.extents.as_slice())?;
    out.append(b"\n")
}

fn put_array_lines(out: &mut Text, arrays: &[ArrayDecl]) -> Result<(), AllocError>
    ensures { OnOk result (out.new ≡ out.old ++ flat_map array_line arrays.now) }
{
    for array in arrays {
        put_array_line(out, array)?;
    }
    Ok(())
}

#[tactic(auto, unfolding(crate::specs::CodeText::buffer_line))]
fn put_buffer_line(out: &mut Text, number: usize, extents: &[u32]) -> Result<(), AllocError>
    ensures { OnOk result (out.new ≡ out.old ++ buffer_line number extents.now) }
{
    out.append(b"buffer ")?;
    put_buffer(out, number as u64)?;
    put_extents(out, extents)?;
    out.append(b"\n")
}

#[tactic(auto, using(crate::proofs::Steps::buffers_more))]
fn put_buffer_lines(out: &mut Text, temps: &[List<u32>]) -> Result<(), AllocError>
    ensures { OnOk result (out.new ≡ out.old ++ buffer_lines 0 temps.now) }
{
    for (k, extents) in temps.iter().enumerate() {
        put_buffer_line(out, k, extents.as_slice())?;
    }
    Ok(())
}

/// The text of the unit of these parts.
#[tactic(auto, unfolding(crate::specs::CodeText::unit_text))]
pub(crate) fn text_of(
    alloc: Global,
    root: &Code,
    arrays: &[ArrayDecl],
    temps: &[List<u32>],
) -> Result<Text, AllocError>
    ensures { IfOk result (λ text. text ≡ unit_text (unit_of root.now arrays.now temps.now)) }
{
    let mut out = Text::new(alloc);
    put_array_lines(&mut out, arrays)?;
    put_buffer_lines(&mut out, temps)?;
    let names = Names::of(alloc, arrays)?;
    let spot = Spot {
        behind: false,
        level: 0,
        around: 0,
    };
    put_code(&mut out, &names, root, spot)?;
    Ok(out)
}

/// The text of a unit for people.
pub fn code_text(alloc: Global, unit: &Unit) -> Result<Text, AllocError>
    ensures { IfOk result (λ text. text ≡ unit_text unit.now) }
{
    text_of(
        alloc,
        &unit.root,
        unit.arrays.as_slice(),
        unit.temps.as_slice(),
    )
}

/// States that units of one text are one, whatever is in them. It does nothing.
pub fn texts_differ()
    ensures { (u v : UnitParts) → unit_text u ≡ unit_text v → u ≡ v }
{}
