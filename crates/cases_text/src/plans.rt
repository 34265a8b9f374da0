// The steps of the text of a plan.
use crate::streams::check_plan;
use case_lines::{Page, cut};

/// Adds the octet of two digits, and what stands behind them.
fn push_digits(text: &mut Vec<u8>, part: &str, page: &mut Page) {
    let (digits, rest) = part.split_at_checked(2).unwrap_or(("", part));
    if let Ok(octet) = u8::from_str_radix(digits, 16) {
        page.check(text.push(octet));
    }
    page.check(text.extend_from_slice(rest.as_bytes()));
}

/// Adds the octets of a line, in which `\` and two digits stand for one.
fn push_line(text: &mut Vec<u8>, line: &str, page: &mut Page) {
    let mut parts = line.split('\\');
    let front = parts.next().unwrap_or("");
    page.check(text.extend_from_slice(front.as_bytes()));
    for part in parts {
        push_digits(text, part, page);
    }
}

/// Adds a text so many times: `N TEXT`.
fn push_times(text: &mut Vec<u8>, line: &str, page: &mut Page) {
    let (count, line) = cut(line);
    for _ in 0..count.parse().unwrap_or(0u32) {
        push_line(text, line, page);
    }
}

/// Writes what the check says of the text with this line behind it.
fn check_with(text: &mut Vec<u8>, line: &str, page: &mut Page) {
    let before = text.len();
    push_line(text, line, page);
    check_plan(text, "", page);
    text.truncate(before);
}

/// Writes what a step on the text of a plan answers, and nothing if it adds to the text alone.
pub fn answer(text: &mut Vec<u8>, step: &str, page: &mut Page) {
    let (word, rest) = cut(step);
    match word {
        "new" => text.clear(),
        ":" => {
            push_line(text, rest, page);
            page.check(text.push(b'\n'));
        }
        "x" => push_times(text, rest, page),
        "line" => check_with(text, rest, page),
        "check" | "fails" => check_plan(text, step, page),
        "pieces" => check_plan(text, rest, page),
        _ => page.push_str("no step"),
    }
}
