// The largest sections and texts, and one beyond each.
use crate::answers::show;
use std::io;
use text::page::Page;

// Puts a section: how many numbers it has, and so many trains or departures, all the same.
fn put_section<const N: usize>(text: &mut Page<N>, numbers: u32, each: &str, times: u32) {
    text.put(b" ");
    text.put_number(i64::from(numbers));
    for _ in 0..times {
        text.put(each.as_bytes());
    }
}

// Puts the heading and the lists of stations that have so many trains each, all with the same numbers.
fn put_lists<const N: usize>(
    text: &mut Page<N>,
    heading: &str,
    numbers: u32,
    train: &str,
    trains: u32,
) {
    text.put(heading.as_bytes());
    put_section(text, numbers, train, trains);
    put_section(text, numbers, train, trains);
}

// Full stations, in texts of up to 1024 bytes.
pub fn stations(rt: &impl Print) -> io::Result<()> {
    let row = " 1 0 0 0 0 0 0 0 0 0 0 0 0 0 0 0 0";
    for (name, heading, numbers, train, trains) in [
        ("48 trains a station", "3 2 10 2", 48, " 0", 48),
        ("49 trains a station", "3 2 10 2", 49, " 0", 49),
        ("12 rows a station", "3 3 10 2", 204, row, 12),
        ("13 rows a station", "3 3 10 2", 221, row, 13),
    ] {
        let mut text = Page::<1024>::new();
        put_lists(&mut text, heading, numbers, train, trains);
        text.put(b" 0\n");
        show(rt, name, text.as_bytes())?;
    }
    Ok(())
}

// Full sections, in texts of up to 4096 bytes.
pub fn sections(rt: &impl Print) -> io::Result<()> {
    for (name, count) in [
        ("512 numbers in each section", 512),
        ("513 recorded departures", 513),
    ] {
        let mut text = Page::<4096>::new();
        put_lists(&mut text, "3 2 10 2", 512, " 0", 512);
        put_section(&mut text, count, " 0", count);
        show(rt, name, text.as_bytes())?;
    }
    Ok(())
}

// Case D, with spaces after it.
pub fn texts(rt: &impl Print) -> io::Result<()> {
    let d = b"3 2 10 2\n2 1 1\n1 5\n0\n";
    let mut text = [b' '; 16385];
    text[..d.len()].copy_from_slice(d);
    show(rt, "D in 16384 bytes", &text[..16384])?;
    show(rt, "D in 16385 bytes", &text)
}
