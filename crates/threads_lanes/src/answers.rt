// The answers of a run, as they were put.
use case_lines::number_of;
use std::alloc::Global;
use std::test::Fail;

/// The code of the answer to a frame that is protected.
pub(crate) const PROTECTED: u8 = 0x00;

/// The first 24 octets of an answer.
#[derive(Clone, Copy, Debug, PartialEq, Eq)]
pub(crate) struct Head {
    pub(crate) code: u8,
    pub(crate) key: u64,
    pub(crate) length: u64,
    pub(crate) position: u64,
    pub(crate) number: u64,
}

/// The head that stands in these octets, if there are so many.
fn head_of(octets: &[u8]) -> Option<Head> {
    let code = octets.first()?;
    let key = octets.get(2..4)?;
    let length = octets.get(4..8)?;
    let position = octets.get(8..16)?;
    let number = octets.get(16..24)?;
    Some(Head {
        code: *code,
        key: number_of(key),
        length: number_of(length),
        position: number_of(position),
        number: number_of(number),
    })
}

/// The heads of so many answers, where these are all that was put.
pub(crate) fn heads(alloc: Global, sunk: &[u8], count: u64) -> Result<Vec<Head>, Fail> {
    let mut heads = Vec::new(alloc);
    let mut rest = sunk;
    for _ in 0..count {
        let (octets, behind) = rest.split_at_checked(24).ok_or("an answer lacks")?;
        let head = head_of(octets).ok_or("an answer is cut")?;
        rest = behind
            .get(head.length as usize..)
            .ok_or("an answer is cut")?;
        heads.push(head)?;
    }
    if rest.is_empty() {
        Ok(heads)
    } else {
        Err("more was put".into())
    }
}

/// How many answers have this code.
pub(crate) fn counted(heads: &[Head], code: u8) -> usize {
    heads.iter().filter(|head| head.code == code).count()
}

/// The numbers under which a key protected frames, in ascending order and each once.
pub(crate) fn numbers_of(alloc: Global, heads: &[Head], key: u64) -> Result<Vec<u64>, Fail> {
    let mut numbers = Vec::new(alloc);
    for head in heads {
        if head.code == PROTECTED && head.key == key {
            numbers.push(head.number)?;
        }
    }
    numbers.sort()?;
    numbers.dedup();
    Ok(numbers)
}
