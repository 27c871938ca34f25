//! What the program `bits` prints, and the status that it ends with.

use bits_lib::answer;
use replay_lib::answer::Answer;
use std::alloc::{AllocError, Global};

/// Writes the answer of the program `bits` to its arguments, and its status.
///
/// The lines of an answer have `;` between them, and `usage` stands for the line that names the
/// calls. A question of one empty word is a call with no arguments; elsewhere an empty word is an
/// empty argument.
pub fn write_answer(out: &mut Answer, words: &[&str]) -> Option<()> {
    let Ok(args) = arguments(*out.alloc, words) else {
        out.note(Err(AllocError));
        return None;
    };
    let mut written = Vec::new(*out.alloc);
    let status = answer::answer(out.alloc, &args, &mut written);
    let text = str::from_utf8(&written).ok()?;
    if text == answer::USAGE {
        out.push("usage");
    } else {
        write_lines(out, text);
    }
    out.begin_item();
    out.push("status ");
    out.display(&status);
    Some(())
}

// The words as the arguments of a call.
fn arguments(alloc: Global, words: &[&str]) -> Result<Vec<String>, AllocError> {
    let mut args = Vec::new(alloc);
    if let [""] = words {
        return Ok(args);
    }
    for word in words {
        args.push(String::from_str(alloc, word)?)?;
    }
    Ok(args)
}

// Writes lines behind one another, with `;` between them.
fn write_lines(out: &mut Answer, lines: &str) {
    for line in lines.lines() {
        out.begin_item();
        out.push(line);
    }
}
