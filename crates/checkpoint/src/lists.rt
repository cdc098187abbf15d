ghost use Rattle.std.specs.Prelude.{◌≡◌, ◌≤◌, ◌++◌, length, option_map, OnOk, IfOk, IfErr, Some};
ghost use Rattle.checkpoint.specs.Bytes.{string_bytes, each_bytes, AreBytes, Each};
ghost use Rattle.checkpoint.specs.Reading.{string_at, utf8_text, read_items, TellsDecodeFault};

use crate::fault::DecodeFault;
use crate::spelled::{Listed, Readable, Spelled};
use fx_base::{NoMemory, Seq, Text};
use std::alloc::Global;

/// Appends bytes behind their number.
pub(crate) fn put_string(string: &[u8], out: &mut Vec<u8>) -> Result<(), NoMemory>
    ensures appends { OnOk result (out.new.items ≡ out.old.items ++ string_bytes string.now) }
    ensures fits { OnOk result (AreBytes string.now) }
{
    let count = string.len() as u64;
    count.put(out)?;
    out.extend_from_slice(string)?;
    Ok(())
}

/// As many bytes as are said, and the bytes behind them. Takes no memory.
#[tactic(auto, unfolding(crate::specs::Reading::string_at))]
pub(crate) fn string_at(alloc: Global, from: &[u8]) -> Result<(&[u8], &[u8]), DecodeFault>
    ensures found { IfOk result (λ f. string_at from.now ≡ Some (f.0.now, f.1.now)) }
    ensures bad { IfErr result (TellsDecodeFault (string_at from.now)) }
{
    let (count, rest) = u64::take(alloc, from)?;
    if (rest.len() as u64) < count {
        return Err(DecodeFault::BadImage);
    }
    let (string, behind) = rest.split_at(count as usize);
    Ok((string, behind))
}

// The bytes as text, where they are UTF-8.
fn as_text(bytes: &[u8]) -> Option<&str>
    ensures { option_map (λ text. text.now) result ≡ utf8_text bytes.now }
{
    std::str::from_utf8(bytes).ok()
}

impl Spelled for Text {
    ghost use Rattle.checkpoint.specs.Bytes.{IsImageText};

    ghost spelling = { string_bytes };

    ghost is_fit = { IsImageText };

    fn put(&self, out: &mut Vec<u8>) -> Result<(), NoMemory> {
        put_string(self.as_str().as_bytes(), out)?;
        Ok(())
    }
}

impl Readable for Text {
    ghost use Rattle.checkpoint.specs.Reading.{read_text};

    ghost at = { read_text };

    #[tactic(auto, unfolding(crate::specs::Reading::read_text))]
    fn take(alloc: Global, from: &[u8]) -> Result<(Text, &[u8]), DecodeFault> {
        let (string, behind) = string_at(alloc, from)?;
        match as_text(string) {
            None => Err(DecodeFault::BadImage),
            Some(text) => {
                let text = Text::new(alloc, text)?;
                Ok((text, behind))
            }
        }
    }
}

// Appends values one behind the other.
fn put_each<T: Spelled>(items: &[T], out: &mut Vec<u8>) -> Result<(), NoMemory>
    ensures appends { OnOk result (out.new.items ≡ out.old.items ++ each_bytes T.spelling items.now) }
    ensures fits { OnOk result (Each T.is_fit items.now) }
{
    for item in items {
        item.put(out)?;
    }
    Ok(())
}

impl<T: Spelled> Spelled for Seq<T> {
    ghost use Rattle.checkpoint.specs.Bytes.{list_bytes, AreAll};

    ghost spelling = { list_bytes T.spelling };

    ghost is_fit = { AreAll T.is_fit };

    fn put(&self, out: &mut Vec<u8>) -> Result<(), NoMemory> {
        let items = self.as_slice();
        let count = items.len() as u64;
        count.put(out)?;
        put_each(items, out)
    }
}

// So many values, and the bytes behind them. Takes memory for as many at once, so there are at least so many bytes.
fn items_at<T: Readable>(
    alloc: Global,
    count: u64,
    from: &[u8],
) -> Result<(Seq<T>, &[u8]), DecodeFault>
    requires { count ≤ length from.now }
    ensures found { IfOk result (λ f. read_items T.at count from.now ≡ Some (f.0, f.1.now)) }
    ensures bad { IfErr result (TellsDecodeFault (read_items T.at count from.now)) }
{
    let mut items = Vec::with_capacity(alloc, count as usize)?;
    let mut rest = from;
    for _ in 0..count {
        let (item, behind) = T::take(alloc, rest)?;
        items.push(item).unwrap();
        rest = behind;
    }
    Ok((Seq::from_vec(items), rest))
}

/// As many values as are said, where the bytes can have so many: else it takes no memory.
impl<T: Listed> Readable for Seq<T> {
    ghost use Rattle.checkpoint.specs.Reading.{list_at};

    ghost at = { list_at T.at T.LEAST };

    #[tactic(auto, unfolding(crate::specs::Reading::list_at))]
    fn take(alloc: Global, from: &[u8]) -> Result<(Seq<T>, &[u8]), DecodeFault> {
        let (count, rest) = u64::take(alloc, from)?;
        if ((rest.len() / T::LEAST) as u64) < count {
            return Err(DecodeFault::BadImage);
        }
        items_at(alloc, count, rest)
    }
}
