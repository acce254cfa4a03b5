//! Each command's list by its definition, element by element: slow, plain, and apart from the code
//! of the commands.

use crate::recipe::Command;
use crate::walk::place;
use ch_affine::List;
use ch_timed::{Element, Identity};
use std::alloc::{AllocError, Global};

/// An element's identity, and its vector taken apart.
#[derive(Drop)]
pub(crate) struct Plain {
    identity: Identity,
    places: Vec<i64>,
    values: Vec<i64>,
}

impl Plain {
    fn of(alloc: Global, element: &Element) -> Result<Plain, AllocError> {
        let mut places = Vec::new(alloc);
        let mut values = Vec::new(alloc);
        let mut is_place = true;
        for number in element.vector.as_slice() {
            if is_place {
                places.push(*number)?;
            } else {
                values.push(*number)?;
            }
            is_place = !is_place;
        }
        let identity = Identity {
            label: element.identity.label,
            iters: List::from_slice(alloc, element.identity.iters.as_slice())?,
        };
        Ok(Plain {
            identity,
            places,
            values,
        })
    }

    /// The value of a level, counted from 1.
    fn value(&self, level: i64) -> i64 {
        at(&self.values, level.wrapping_sub(1))
    }

    fn set_value(&mut self, level: i64, value: i64) {
        set(&mut self.values, level.wrapping_sub(1), value);
    }

    fn place(&self, k: i64) -> i64 {
        at(&self.places, k)
    }

    fn set_place(&mut self, k: i64, place: i64) {
        set(&mut self.places, k, place);
    }

    /// Whether it has the vector of the other element.
    fn is_at(&self, element: &Element) -> bool {
        let vector = element.vector.as_slice();
        if vector.len() != self.places.len().saturating_add(self.values.len()) {
            return false;
        }
        for k in 0..vector.len() {
            let ours = if k % 2 == 0 {
                self.places.get(k / 2)
            } else {
                self.values.get(k / 2)
            };
            if ours != vector.get(k) {
                return false;
            }
        }
        true
    }
}

fn at(numbers: &[i64], k: i64) -> i64 {
    match usize::try_from(k) {
        Ok(k) => numbers.get(k).copied().unwrap_or(0),
        Err(_) => 0,
    }
}

fn set(numbers: &mut [i64], k: i64, number: i64) {
    if let Ok(k) = usize::try_from(k) {
        if k < numbers.len() {
            numbers[k] = number;
        }
    }
}

/// Whether both places have that level and begin alike up to it.
fn share(level: i64, ours: &[i64], theirs: &[i64]) -> bool {
    match usize::try_from(level) {
        Ok(level) => {
            level < ours.len() && level < theirs.len() && ours[..level] == theirs[..level]
        }
        Err(_) => false,
    }
}

/// Whether both are the places of pieces in one body: those behind the loop values before that
/// level are the same.
fn beside(level: i64, ours: &[i64], theirs: &[i64]) -> bool {
    match usize::try_from(level) {
        Ok(level) if 1 <= level => {
            level <= ours.len() && level <= theirs.len() && ours[..level - 1] == theirs[..level - 1]
        }
        _ => false,
    }
}

/// The different places of the elements, in order.
fn pieces(alloc: Global, list: &[Plain]) -> Result<Vec<Vec<i64>>, AllocError> {
    let mut pieces: Vec<Vec<i64>> = Vec::new(alloc);
    for plain in list {
        if !pieces.iter().any(|places| **places == *plain.places) {
            pieces.push(plain.places.clone()?)?;
        }
    }
    pieces.sort()?;
    Ok(pieces)
}

/// The places of the piece of that number; none where it is no piece's.
fn piece(pieces: &[Vec<i64>], number: i64) -> &[i64] {
    match usize::try_from(number) {
        Ok(number) => pieces.get(number).map_or(&[], |places| places.as_slice()),
        Err(_) => &[],
    }
}

/// Whether the places are those of a named piece.
fn is_named(pieces: &[Vec<i64>], numbers: &[i64], places: &[i64]) -> bool {
    numbers
        .iter()
        .any(|number| piece(pieces, *number) == places)
}

/// Whether the places share that level with a named piece.
fn is_grouped(pieces: &[Vec<i64>], numbers: &[i64], level: i64, places: &[i64]) -> bool {
    numbers
        .iter()
        .any(|number| share(level, piece(pieces, *number), places))
}

/// The greatest place at k of the pieces that share that level with a named one.
fn greatest_place(pieces: &[Vec<i64>], numbers: &[i64], level: i64, k: i64) -> i64 {
    let mut greatest = 0;
    for places in pieces {
        if is_grouped(pieces, numbers, level, places) {
            greatest = greatest.max(at(places, k));
        }
    }
    greatest
}

/// The deepest level that all pieces of the group share.
fn deepest_shared(pieces: &[Vec<i64>], number: i64, level: i64) -> i64 {
    let ours = piece(pieces, number);
    let mut deepest = level;
    for deeper in level..11 {
        let all = pieces.iter().all(|places| !share(level, ours, places)
            || share(deeper, ours, places));
        if all {
            deepest = deeper;
        }
    }
    deepest
}

fn quotient(value: i64, size: i64) -> i64 {
    if size < 1 {
        return 0;
    }
    value.div_euclid(size)
}

fn remainder(value: i64, size: i64) -> i64 {
    if size < 1 {
        return 0;
    }
    value.rem_euclid(size)
}

fn permuted(pieces: &[Vec<i64>], plain: &mut Plain, number: i64, order: &[i64]) {
    let mut first = 0;
    for k in 0..order.len() {
        let level = k as i64 + 1;
        if first == 0 && order[k] != level {
            first = level;
        }
    }
    if first == 0 || !share(first, piece(pieces, number), &plain.places) {
        return;
    }
    let mut new = [0; 10];
    for k in 0..order.len().min(10) {
        new[k] = plain.value(order[k]);
    }
    for k in 0..order.len().min(10) {
        plain.set_value(k as i64 + 1, new[k]);
    }
}

fn raised(plain: &mut Plain, level: i64, amounts: &[i64], amount: i64) {
    let mut value = plain.value(level).wrapping_add(amount);
    for k in 0..amounts.len() {
        value = value.wrapping_add(amounts[k].wrapping_mul(plain.value(k as i64 + 1)));
    }
    plain.set_value(level, value);
}

fn tiled(plain: &mut Plain, level: i64, size: i64, outer: i64) -> Result<(), AllocError> {
    let tile = quotient(plain.value(level), size);
    if let Ok(k) = usize::try_from(outer) {
        if 1 <= k && k <= plain.places.len() && k - 1 <= plain.values.len() {
            plain.values.insert(k - 1, tile)?;
            plain.places.insert(k, 0)?;
        }
    }
    Ok(())
}

fn unrolled(pieces: &[Vec<i64>], plain: &mut Plain, number: i64, level: i64, amount: i64) {
    let h = deepest_shared(pieces, number, level);
    let width = greatest_place(pieces, &[number], level, h).wrapping_add(1);
    let value = plain.value(level);
    let copy = remainder(value, amount).wrapping_mul(width);
    plain.set_place(h, copy.wrapping_add(plain.place(h)));
    plain.set_value(level, quotient(value, amount));
}

/// The place of a piece beside the loop is doubled, and is one more where `is_behind`.
fn cut(plain: &mut Plain, level: i64, is_behind: bool) {
    let k = level.wrapping_sub(1);
    let double = plain.place(k).wrapping_mul(2);
    plain.set_place(k, double.wrapping_add(i64::from(is_behind)));
}

fn holds(plain: &Plain, coefs: &[i64], constant: i64) -> bool {
    let mut value = constant;
    for k in 0..coefs.len() {
        value = value.wrapping_add(coefs[k].wrapping_mul(plain.value(k as i64 + 1)));
    }
    value >= 0
}

/// The least and the greatest value of the level in the group.
fn ends(list: &[Plain], ours: &[i64], level: i64) -> (i64, i64) {
    let mut least = i64::MAX;
    let mut greatest = i64::MIN;
    for plain in list {
        if share(level, ours, &plain.places) {
            least = least.min(plain.value(level));
            greatest = greatest.max(plain.value(level));
        }
    }
    (least, greatest)
}

fn is_peeled(plain: &Plain, level: i64, count: i64, ends: (i64, i64)) -> bool {
    let (least, greatest) = ends;
    if count > 0 {
        plain.value(level) < least.wrapping_add(count)
    } else {
        plain.value(level) <= greatest.wrapping_add(count)
    }
}

fn split(list: &mut [Plain], ours: &[i64], level: i64, coefs: &[i64], constant: i64) {
    for plain in list {
        if beside(level, ours, &plain.places) {
            let fails = share(level, ours, &plain.places) && !holds(plain, coefs, constant);
            cut(plain, level, fails);
        }
    }
}

fn peeled(list: &mut [Plain], ours: &[i64], level: i64, count: i64) {
    let ends = ends(list, ours, level);
    for plain in list {
        if beside(level, ours, &plain.places) {
            let fails = share(level, ours, &plain.places) && !is_peeled(plain, level, count, ends);
            cut(plain, level, fails);
        }
    }
}

fn fused(pieces: &[Vec<i64>], plain: &mut Plain, numbers: &[i64], level: i64) {
    if !is_grouped(pieces, numbers, level, &plain.places) {
        return;
    }
    let outer = level.wrapping_sub(1);
    let width = greatest_place(pieces, numbers, level, level).wrapping_add(1);
    let mut first = i64::MAX;
    for places in pieces {
        if is_grouped(pieces, numbers, level, places) {
            first = first.min(at(places, outer));
        }
    }
    let body = plain.place(outer).wrapping_mul(width);
    plain.set_place(level, body.wrapping_add(plain.place(level)));
    plain.set_place(outer, first);
}

/// The different places, at the level, of the named pieces.
fn beginnings(
    alloc: Global,
    pieces: &[Vec<i64>],
    numbers: &[i64],
    level: i64,
) -> Result<Vec<i64>, AllocError> {
    let mut places: Vec<i64> = Vec::new(alloc);
    for number in numbers {
        let place = at(piece(pieces, *number), level);
        if !places.contains(&place) {
            places.push(place)?;
        }
    }
    Ok(places)
}

fn distributed(pieces: &[Vec<i64>], plain: &mut Plain, leader: i64, level: i64, begins: &[i64]) {
    let ours = piece(pieces, leader);
    if !beside(level, ours, &plain.places) {
        return;
    }
    let outer = level.wrapping_sub(1);
    let mut place = plain
        .place(outer)
        .wrapping_mul((begins.len() as i64).wrapping_add(1));
    if share(level, ours, &plain.places) {
        for begin in begins {
            place = place.wrapping_add(i64::from(*begin <= plain.place(level)));
        }
    }
    plain.set_place(outer, place);
}

/// What a command that changes loop values alone, or adds a loop, does to the vectors.
fn move_values(
    pieces: &[Vec<i64>],
    list: &mut [Plain],
    command: &Command,
) -> Result<(), AllocError> {
    match command {
        Command::Permute { piece, order } => {
            for plain in list {
                permuted(pieces, plain, *piece, order);
            }
        }
        Command::Skew {
            pieces: numbers,
            level,
            amounts,
        } => {
            for plain in list {
                if is_named(pieces, numbers, &plain.places) {
                    raised(plain, *level, amounts, 0);
                }
            }
        }
        Command::Shift {
            pieces: numbers,
            level,
            amount,
        } => {
            for plain in list {
                if is_named(pieces, numbers, &plain.places) {
                    raised(plain, *level, &[], *amount);
                }
            }
        }
        Command::Tile {
            piece: number,
            level,
            size,
            outer,
        } => {
            for plain in list {
                if share(*outer, piece(pieces, *number), &plain.places) {
                    tiled(plain, *level, *size, *outer)?;
                }
            }
        }
        _ => {}
    }
    Ok(())
}

/// What a command that changes places does to the vectors.
fn move_places(
    alloc: Global,
    pieces: &[Vec<i64>],
    list: &mut [Plain],
    command: &Command,
) -> Result<(), AllocError> {
    match command {
        Command::Unroll {
            piece: number,
            level,
            amount,
        } => {
            for plain in list {
                if share(*level, piece(pieces, *number), &plain.places) {
                    unrolled(pieces, plain, *number, *level, *amount);
                }
            }
        }
        Command::Split {
            piece: number,
            level,
            coefs,
            constant,
        } => split(list, piece(pieces, *number), *level, coefs, *constant),
        Command::Peel {
            piece: number,
            level,
            count,
        } => peeled(list, piece(pieces, *number), *level, *count),
        Command::Fuse {
            pieces: numbers,
            level,
        } => {
            for plain in list {
                fused(pieces, plain, numbers, *level);
            }
        }
        Command::Distribute {
            pieces: numbers,
            level,
        } => {
            let begins = beginnings(alloc, pieces, numbers, *level)?;
            if let Some(leader) = numbers.first() {
                for plain in list {
                    distributed(pieces, plain, *leader, *level, &begins);
                }
            }
        }
        _ => {}
    }
    Ok(())
}

/// What the command does to the vectors, before places are closed up.
fn move_all(alloc: Global, list: &mut [Plain], command: &Command) -> Result<(), AllocError> {
    let pieces = pieces(alloc, list)?;
    move_values(&pieces, list, command)?;
    move_places(alloc, &pieces, list, command)
}

/// The place at k, counted among the places that follow the same ones.
fn closed(alloc: Global, pieces: &[Vec<i64>], places: &[i64], k: usize) -> Result<i64, AllocError> {
    let mut less: Vec<i64> = Vec::new(alloc);
    for other in pieces {
        if k < other.len()
            && k < places.len()
            && other[..k] == places[..k]
            && other[k] < places[k]
            && !less.contains(&other[k])
        {
            less.push(other[k])?;
        }
    }
    Ok(less.len() as i64)
}

fn close_up(alloc: Global, list: &mut [Plain]) -> Result<(), AllocError> {
    let pieces = pieces(alloc, list)?;
    for plain in list {
        let mut places = Vec::new(alloc);
        for k in 0..plain.places.len() {
            places.push(closed(alloc, &pieces, &plain.places, k)?)?;
        }
        plain.places = places;
    }
    Ok(())
}

/// Whether the new list has the old elements at the vectors that the command's definition gives
/// them.
pub(crate) fn is_moved(
    alloc: Global,
    olds: &[Element],
    news: &[Element],
    command: &Command,
) -> Result<bool, AllocError> {
    let mut list = Vec::new(alloc);
    for element in olds {
        list.push(Plain::of(alloc, element)?)?;
    }
    move_all(alloc, &mut list, command)?;
    close_up(alloc, &mut list)?;
    if news.len() != list.len() {
        return Ok(false);
    }
    for plain in &list {
        match news.get(place(news, &plain.identity)) {
            Some(element) if plain.is_at(element) => {}
            _ => return Ok(false),
        }
    }
    Ok(true)
}
