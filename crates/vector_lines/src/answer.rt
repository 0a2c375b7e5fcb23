// A text of vectors, line by line.
use crate::{parse, print};

// Prints a line's answer by the function that is asked, or the line itself where it is a heading.
fn answer<P: Print, F: Fn(&P, u64, &[u8])>(rt: &P, line: &[u8], ask: &F)
    requires { F.IsAlwaysCallable ask.now }
{
    let n = parse::until(line, b'|');
    print::text(rt, &line[..n]);
    let fields = parse::after(line, b'|');
    if !fields.is_empty() {
        ask(rt, parse::decimal(line), fields);
    }
    print::text(rt, b"\n");
}

// Answers each line of a text, the last one too where no newline ends it.
pub fn answer_all<P: Print, F: Fn(&P, u64, &[u8])>(rt: &P, text: &[u8], ask: F)
    requires { F.IsAlwaysCallable ask }
{
    for line in text.split_inclusive(|b| *b == b'\n') {
        answer(rt, line.strip_suffix(b"\n").unwrap_or(line), &ask);
    }
}
