//! The lines of pieces.
ghost use Rattle.std.specs.Prelude.{◌≡◌, ◌<◌, ◌++◌, codes, pos, length, map, OnOk};
ghost use Rattle.std.specs.List.{flat_map, range_with_len};
ghost use Rattle.ch_check.specs.PieceText.{piece_ends, piece_front, piece_line, piece_lines};
ghost use Rattle.ch_print.specs.Lists.{behind};
ghost use Rattle.ch_print.specs.Numbers.{integer_text};
ghost use Rattle.ch_space.specs.Members.{members};
ghost use Rattle.ch_timed.specs.Timed.{pieces};

use ch_affine::Text;
use ch_print::{put_identity, put_integer, put_label, put_number};
use ch_space::{Space, ends, label, piece_count, pieces, places};
use ch_timed::{Identity, Label};
use std::alloc::{AllocError, Global};

/// Adds a static place after a space.
fn put_place(out: &mut Text, place: i64) -> Result<(), AllocError>
    ensures { OnOk result (out.new ≡ out.old ++ behind (codes " ") integer_text place) }
{
    out.append(b" ")?;
    put_integer(out, place)
}

fn put_places(out: &mut Text, places: &[u32]) -> Result<(), AllocError>
    ensures { OnOk result (out.new
        ≡ out.old ++ flat_map (behind (codes " ") integer_text) (map pos places.now)) }
{
    for place in places {
        put_place(out, i64::from(*place))?;
    }
    Ok(())
}

/// Adds a piece's number, label and static places.
#[tactic(auto, unfolding(crate::specs::PieceText::piece_front))]
fn put_front(out: &mut Text, number: u32, label: Label, places: &[u32]) -> Result<(), AllocError>
    ensures { OnOk result (out.new ≡ out.old ++ piece_front number label (map pos places.now)) }
{
    out.append(b"piece ")?;
    put_number(out, u64::from(number))?;
    out.append(b" ")?;
    put_label(out, label)?;
    out.append(b" places")?;
    put_places(out, places)
}

/// Adds how many instances a piece has, and its first and last one.
#[tactic(auto, unfolding(crate::specs::PieceText::piece_ends))]
fn put_ends(out: &mut Text, count: u64, first: &Identity, last: &Identity) -> Result<(), AllocError>
    ensures { OnOk result (out.new ≡ out.old ++ piece_ends count first.now last.now) }
{
    out.append(b" count ")?;
    put_number(out, count)?;
    out.append(b" first ")?;
    put_identity(out, first)?;
    out.append(b" last ")?;
    put_identity(out, last)?;
    out.append(b"\n")
}

/// Adds the line of one piece.
fn put_piece(alloc: Global, out: &mut Text, space: &Space, number: u32) -> Result<(), AllocError>
    requires { number < length (pieces space.now.list) }
    ensures { OnOk result (out.new ≡ out.old ++ piece_line number (members space.now.list number)) }
{
    let (first, last) = ends(alloc, space, number)?;
    put_front(out, number, label(space, number), places(space, number))?;
    put_ends(out, piece_count(space, number), &first, &last)
}

/// Adds a line for each piece.
pub(crate) fn put_pieces(alloc: Global, out: &mut Text, space: &Space) -> Result<(), AllocError>
    ensures { OnOk result (out.new ≡ out.old ++ piece_lines space.now.list) }
{
    for number in 0..pieces(space) {
        put_piece(alloc, out, space, number)?;
    }
    Ok(())
}
