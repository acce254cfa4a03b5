//! Prints the least point of each system that the standard input lists, one system a line: a name,
//! the numbers of variables and rows, the low and the high of each variable's range, and each row's
//! coefficients and constant. A word on the command line says how often each system is solved,
//! which changes no output, so that a run can be timed.
#![tactic(auto)]

use anyhow::Result;
use ch_affine::{Aff, List, Range, System};
use ch_poly::least_point;
use std::alloc::{AllocError, Global};
use std::{env, io};

fn row(alloc: Global, numbers: &[i64]) -> Result<Option<Aff>, AllocError> {
    let Some((constant, coefs)) = numbers.split_last() else {
        return Ok(None);
    };
    let coefs = List::from_slice(alloc, coefs)?;
    Ok(Aff::new(coefs, *constant))
}

fn system(alloc: Global, numbers: &[i64]) -> Result<Option<System>, AllocError> {
    let [vars, _rows, rest @ ..] = numbers else {
        return Ok(None);
    };
    let Ok(vars) = u32::try_from(*vars) else {
        return Ok(None);
    };
    let count = vars as usize;
    if rest.len() < 2 * count {
        return Ok(None);
    }
    let (ends, coefs) = rest.split_at(2 * count);
    let mut boxes = List::new(alloc);
    for k in 0..count {
        boxes.push(Range {
            low: ends[2 * k],
            high: ends[2 * k + 1],
        })?;
    }
    let mut rows = List::new(alloc);
    for numbers in coefs.chunks(count + 1) {
        let Some(row) = row(alloc, numbers)? else {
            return Ok(None);
        };
        rows.push(row)?;
    }
    Ok(System::new(vars, rows, boxes))
}

fn main(rt: HostRuntime) -> Result<()> {
    let alloc = rt.alloc();
    let mut repeats = 1u32;
    if let Some(word) = env::args(&rt)?.nth(1) {
        repeats = word.parse().unwrap_or(1);
    }
    let text = io::read_to_string(alloc, rt.reader())?;
    for line in text.lines() {
        let mut words = line.split(' ');
        let name = words.next().unwrap_or("");
        let mut numbers = Vec::new(alloc);
        for word in words {
            numbers.push(word.parse::<i64>().unwrap_or(0))?;
        }
        let Some(system) = system(alloc, &numbers)? else {
            println!(rt; "{name} no system")?;
            continue;
        };
        let mut point = least_point(alloc, &system)?;
        for _ in 1..repeats {
            point = least_point(alloc, &system)?;
        }
        match point {
            None => println!(rt; "{name} none")?,
            Some(point) => {
                print!(rt; "{name}")?;
                for number in point.as_slice() {
                    print!(rt; " {number}")?;
                }
                println!(rt)?;
            }
        }
    }
    Ok(())
}
