// Each answer, below the name of its case.

use std::io;

// Writes a case's name and the answer to its text.
pub fn show(rt: &impl Print, name: &str, text: &[u8]) -> io::Result<()> {
    println!(rt; "{name}:")?;
    rt.write_all(section_file::answer_text(text).as_bytes())
}

// Shows each of these cases.
pub fn show_all(rt: &impl Print, cases: &[(&str, &[u8])]) -> io::Result<()> {
    for (name, text) in cases {
        show(rt, name, text)?;
    }
    Ok(())
}
