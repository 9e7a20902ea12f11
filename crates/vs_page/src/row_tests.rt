//! Rows of words as they are put, overwritten and taken from one place to another, while a copy is held and while none is.
use crate::Rows;
use std::alloc::{AllocError, Global};

/// The words of a row: its number in the first, and so on.
fn numbered(alloc: Global, width: u32, number: u64) -> Result<Vec<u64>, AllocError> {
    let mut words = Vec::new(alloc);
    for at in 0..width {
        words.push(number.wrapping_add(u64::from(at)))?;
    }
    Ok(words)
}

fn put_number(
    alloc: Global,
    rows: &mut Rows,
    width: u32,
    place: u32,
    number: u64,
) -> Result<(), AllocError> {
    let words = numbered(alloc, width, number)?;
    rows.put(place, Some(words.as_slice()));
    Ok(())
}

/// Whether the words of a number are told at a place.
fn has_number(
    alloc: Global,
    rows: &Rows,
    width: u32,
    place: u32,
    number: u64,
) -> Result<bool, AllocError> {
    let words = numbered(alloc, width, number)?;
    Ok(match rows.get(place) {
        Some(row) => row == words.as_slice(),
        None => false,
    })
}

/// Rows of the numbers of their places.
fn rows_to(alloc: Global, width: u32, end: u32) -> Result<Rows, AllocError> {
    let mut rows = Rows::new(alloc)?;
    for place in 0..end {
        put_number(alloc, &mut rows, width, place, u64::from(place))?;
    }
    Ok(rows)
}

/// Whether rows have the numbers of their places, but for one place.
fn have_numbers(
    alloc: Global,
    rows: &Rows,
    width: u32,
    end: u32,
    other: u32,
    number: u64,
) -> Result<bool, AllocError> {
    let mut all = rows.get(end).is_none();
    for place in 0..end {
        let expected = if place == other {
            number
        } else {
            u64::from(place)
        };
        all = all && has_number(alloc, rows, width, place, expected)?;
    }
    Ok(all)
}

/// Rows over the border of a chunk, of which one is put anew, while a copy is held or not: whether the rows have it, and the copy hasn't.
fn keeps_apart(alloc: Global, width: u32, place: u32, is_held: bool) -> Result<bool, AllocError> {
    let mut rows = rows_to(alloc, width, 258)?;
    let held = if is_held {
        Some(rows.try_clone()?)
    } else {
        None
    };
    put_number(alloc, &mut rows, width, place, 1000)?;
    put_number(alloc, &mut rows, width, 258, 258)?;
    let is_kept = match held {
        Some(held) => have_numbers(alloc, &held, width, 258, 258, 0)?,
        None => true,
    };
    Ok(is_kept && have_numbers(alloc, &rows, width, 259, place, 1000)?)
}

#[test]
fn a_row_is_put_where_it_belongs(rt: HostRuntime) -> Result<(), AllocError> {
    let alloc = rt.alloc();
    for width in [1, 3] {
        for place in [0, 17, 255, 256, 257] {
            for is_held in [false, true] {
                assert!(rt;
                    keeps_apart(alloc, width, place, is_held)?,
                    "{width}, {place}, {is_held}"
                );
            }
        }
    }
    Ok(())
}

/// Rows over the border of a chunk, of which one gets what is told at another: whether it has it.
fn takes(alloc: Global, width: u32, from: u32, to: u32) -> Result<bool, AllocError> {
    let mut rows = rows_to(alloc, width, 258)?;
    let held = rows.try_clone()?;
    rows.take_to(alloc, from, to);
    let is_kept = have_numbers(alloc, &held, width, 258, 258, 0)?;
    Ok(is_kept && have_numbers(alloc, &rows, width, 258, to, u64::from(from))?)
}

#[test]
fn a_row_is_taken_to_another_place(rt: HostRuntime) -> Result<(), AllocError> {
    let alloc = rt.alloc();
    for width in [1, 3] {
        for (from, to) in [(257, 0), (257, 255), (257, 256), (257, 257), (3, 2)] {
            assert!(rt; takes(alloc, width, from, to)?, "{width}, {from}, {to}");
        }
    }
    Ok(())
}

#[test]
fn nothing_is_told_where_nothing_is_known(rt: HostRuntime) -> Result<(), AllocError> {
    let alloc = rt.alloc();
    let mut rows = rows_to(alloc, 3, 258)?;
    // the place behind the next one
    put_number(alloc, &mut rows, 3, 259, 259)?;
    assert!(rt; rows.get(259).is_none());
    // words of another width, and none
    rows.put(3, Some(&[7]));
    assert!(rt; rows.get(3).is_none());
    rows.put(256, None);
    assert!(rt; rows.get(256).is_none());
    // a chunk begins anew with its first row
    put_number(alloc, &mut rows, 3, 256, 256)?;
    assert!(rt; has_number(alloc, &rows, 3, 256, 256)?);
    assert!(rt; rows.get(257).is_none());
    Ok(())
}

/// Whether the rows from a place on that lie beside one another are so many, each with the number of its place.
fn lie_beside(
    alloc: Global,
    rows: &Rows,
    width: u32,
    (place, most): (u32, u32),
    count: u32,
) -> Result<bool, AllocError> {
    let run = rows.beside(place, most);
    let mut all = run.rows == count;
    for row in 0..run.rows {
        let words = numbered(alloc, width, u64::from(place) + u64::from(row))?;
        let start = row as usize * width as usize;
        all = all
            && match run.words.get(start..start + width as usize) {
                Some(row) => row == words.as_slice(),
                None => false,
            };
    }
    Ok(all)
}

#[test]
fn rows_of_a_chunk_lie_beside_one_another(rt: HostRuntime) -> Result<(), AllocError> {
    let alloc = rt.alloc();
    for width in [1, 3] {
        let rows = rows_to(alloc, width, 258)?;
        let cases = [
            (0, 258, 256),
            (0, 256, 256),
            (0, 255, 255),
            (0, 0, 0),
            (17, 3, 3),
            (255, 3, 1),
            (256, 2, 2),
            (256, 9, 2),
            (257, 9, 1),
            (258, 9, 0),
            (600, 9, 0),
        ];
        for (place, most, count) in cases {
            assert!(rt;
                lie_beside(alloc, &rows, width, (place, most), count)?,
                "{width}, {place}, {most}"
            );
        }
    }
    Ok(())
}
