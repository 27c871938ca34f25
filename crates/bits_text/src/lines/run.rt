//! The lines of `bits run`: commands through disjoint spans of one memory.

use crate::lines::fault::Fault;
use crate::lines::spans::span_at;
use crate::names::Call;
use crate::number::{number, place};
use crate::words::{words_of, write_words};
use bitvec::mem::BitRegister;
use bitvec::order::BitOrder;
use bitvec::ptr::span::BitSpan;
use bitvec::run::{Command, Reply, Request, can_run_in, run};
use std::alloc::{AllocError, Allocator};
use std::fmt::Write as _;

/// The call `bits run` with its words, spans and commands.
#[derive(Drop)]
pub struct RunCall<'a, 't, A: Allocator> {
    /// Where the answer is made.
    pub alloc: &'a A,
    /// The memory.
    pub words: &'t str,
    /// The spans, as their first places and lengths.
    pub spans: &'t str,
    /// The commands, each with the number of its span.
    pub commands: &'t str,
}

impl<'a, A: Allocator> Call for RunCall<'a, '_, A> {
    type Answer = Result<String<&'a A>, Fault<&'a A>>;

    // One line a reply, and the memory.
    fn at<R: BitRegister, O: BitOrder<R>>(&self) -> Self::Answer {
        let alloc = self.alloc;
        let Some(mut memory) = words_of::<R, A>(alloc, self.words)? else {
            return Err(Fault::Usage);
        };
        let Some(places) = intervals_of(alloc, self.spans)? else {
            return Err(Fault::Usage);
        };
        let Some(requests) = requests_of::<R, A>(alloc, self.commands)? else {
            return Err(Fault::Usage);
        };
        answer::<R, O, A>(alloc, &places, &mut memory, &requests)
    }
}

// One line a reply to the commands through spans, and the memory.
fn answer<'a, R: BitRegister, O: BitOrder<R>, A: Allocator>(
    alloc: &'a A,
    places: &[(u64, u64)],
    memory: &mut [R],
    requests: &[Request<R>],
) -> Result<String<&'a A>, Fault<&'a A>> {
    let spans = spans_of::<R, O, A>(alloc, places)?;
    let replies = served(alloc, &spans, memory, requests)?;
    Ok(text_of(alloc, &replies, memory)?)
}

// Gives the commands to the spans, and returns their replies.
fn served<'a, R: BitRegister, O: BitOrder<R>, A: Allocator>(
    alloc: &'a A,
    spans: &[BitSpan<R, O>],
    memory: &mut [R],
    requests: &[Request<R>],
) -> Result<Vec<Reply<R>, &'a A>, Fault<&'a A>> {
    if !spans.iter().all(|span| span.fits(memory.len())) {
        return Err(Fault::line(alloc, &"span does not fit"));
    }
    let mut order = vec![in alloc; 0usize; spans.len()]?;
    if !can_run_in(spans, memory.len(), &mut order) {
        return Err(Fault::line(alloc, &"spans overlap"));
    }
    let mut replies = vec![in alloc; Reply::NoSpan; requests.len()]?;
    run(spans, memory, requests, &mut replies);
    Ok(replies)
}

// A line a reply, and the memory.
fn text_of<'a, R: BitRegister, A: Allocator>(
    alloc: &'a A,
    replies: &[Reply<R>],
    memory: &[R],
) -> Result<String<&'a A>, AllocError> {
    let mut text = String::new(alloc);
    write_replies(&mut text, replies)?;
    write!(text, "memory ")?;
    write_words(&mut text, memory)?;
    writeln!(text)?;
    Ok(text)
}

// A comma list of places and lengths with a plus sign between them, or `-` for none; `None` where
// the text is no such list.
fn intervals_of<'a, A: Allocator>(
    alloc: &'a A,
    text: &str,
) -> Result<Option<Vec<(u64, u64), &'a A>>, AllocError> {
    let mut all = Vec::new(alloc);
    if text == "-" {
        return Ok(Some(all));
    }
    for pair in text.split(',') {
        let Some(interval) = interval(pair) else {
            return Ok(None);
        };
        all.push(interval)?;
    }
    Ok(Some(all))
}

// A place and a length with a plus sign between them.
fn interval(text: &str) -> Option<(u64, u64)> {
    let (start, len) = text.split_once('+')?;
    Some((place(start)?, place(len)?))
}

// The spans of these places and lengths; the fault is of the first that is refused.
fn spans_of<'a, R: BitRegister, O: BitOrder<R>, A: Allocator>(
    alloc: &'a A,
    places: &[(u64, u64)],
) -> Result<Vec<BitSpan<R, O>, &'a A>, Fault<&'a A>> {
    let mut spans = Vec::new(alloc);
    for (start, len) in places {
        let span = span_at::<R, O, A>(alloc, *start, *len)?;
        spans.push(span).map_err(AllocError::from)?;
    }
    Ok(spans)
}

// A comma list of commands, or `-` for none; `None` where the text is no such list.
fn requests_of<'a, R: BitRegister, A: Allocator>(
    alloc: &'a A,
    text: &str,
) -> Result<Option<Vec<Request<R>, &'a A>>, AllocError> {
    let mut all = Vec::new(alloc);
    if text == "-" {
        return Ok(Some(all));
    }
    for text in text.split(',') {
        let words: Vec<&str, &'a A> = text.split(':').collect(alloc)?;
        let Some(request) = request(&words) else {
            return Ok(None);
        };
        all.push(request)?;
    }
    Ok(Some(all))
}

// The number of a span and its command, from the words between the colons.
fn request<R: BitRegister>(words: &[&str]) -> Option<Request<R>> {
    let [span, name, rest @ ..] = words else {
        return None;
    };
    let span = count(span)?;
    let command = command(name, rest)?;
    Some(Request { span, command })
}

// The command of a name with its numbers.
fn command<R: BitRegister>(name: &str, words: &[&str]) -> Option<Command<R>> {
    match words {
        [n] => one_number(name, count(n)?),
        [n, word] => number_and_word(name, count(n)?, word),
        [from, to, word] => bounds_and_word(name, count(from)?, count(to)?, word),
        _ => None,
    }
}

// The command of a name with one number.
fn one_number<R: BitRegister>(name: &str, n: usize) -> Option<Command<R>> {
    match name {
        "load" => Some(Command::Load(n)),
        "set" => Some(Command::Set(n)),
        "clear" => Some(Command::Clear(n)),
        "invert" => Some(Command::Invert(n)),
        "read" => Some(Command::Read(n)),
        _ => None,
    }
}

// The command of a name with a number, and with a word, a bit or another number.
fn number_and_word<R: BitRegister>(name: &str, n: usize, word: &str) -> Option<Command<R>> {
    match name {
        "store" => {
            let value = number(word, 16, u128::MAX)?;
            Some(Command::Store(n, R::from_u128(value)?))
        }
        "replace" => Some(Command::Replace(n, truth(word)?)),
        "swap" => Some(Command::Swap(n, count(word)?)),
        _ => None,
    }
}

// The command of a name with two bounds, and with a number of bits or a bit.
fn bounds_and_word<R: BitRegister>(
    name: &str,
    from: usize,
    to: usize,
    word: &str,
) -> Option<Command<R>> {
    match name {
        "copy" => {
            let count = count(word)?;
            Some(Command::Copy { from, to, count })
        }
        "fill" => {
            let value = truth(word)?;
            Some(Command::Fill { from, to, value })
        }
        _ => None,
    }
}

// A decimal number of 64 bits, as a number of bits or words.
fn count(text: &str) -> Option<usize> {
    Some(place(text)? as usize)
}

// A bit, `0` or `1`.
fn truth(text: &str) -> Option<bool> {
    Some(number(text, 10, 1)? != 0)
}

// Writes a line a reply.
fn write_replies<R: BitRegister, A: Allocator>(
    text: &mut String<A>,
    replies: &[Reply<R>],
) -> Result<(), AllocError> {
    for reply in replies {
        match *reply {
            Reply::Word(word) => {
                let word = word.to_u128();
                writeln!(text, "word {word:x}")?;
            }
            Reply::Bit(bit) => writeln!(text, "bit {}", u8::from(bit))?,
            Reply::Done => writeln!(text, "done")?,
            Reply::PastEnd => writeln!(text, "past end")?,
            Reply::NoSpan => writeln!(text, "no span")?,
        }
    }
    Ok(())
}
