//! The bytes of an image in pieces, so that an image is written without a copy of its facts and without all of its bytes.
ghost use Rattle.std.specs.Prelude.{◌≡◌, ◌++◌, ◌<◌, ◌≤◌, ◌-◌, [], drop, length, true, false, Ok, codes, OnOk, IfOk};
ghost use Rattle.checkpoint.specs.Bytes.{each_bytes, Each, image_bytes, IsImage};
ghost use Rattle.checkpoint.specs.Pieces.{AreNumbers, bytes_at, bytes_left, fit_at, fit_left, number_bytes, pieces_at, pieces_left, whole};
ghost use Rattle.checkpoint.specs.declared.pieces.Next.TheVariants.{Facts as AtFacts};

use crate::image::Image;
use crate::spelled::Spelled;
use fx_base::{Fact, NoMemory};

/// A piece ends behind the first item by which it has so many bytes.
const PIECE: usize = 65_536;

/// An image whose facts are lent.
#[derive(Drop)]
pub struct LentImage<'a> {
    /// All but the facts, of which it holds none.
    pub apart: Image,
    /// The facts, in their order.
    pub facts: Vec<&'a Fact>,
}

/// Where the bytes of an image go on: with its numbers, or with the item of this place in one of its lists.
#[derive(Clone, Copy, Debug, PartialEq, Eq)]
enum Next {
    Front,
    Facts(usize),
    Fired(usize),
    Extras(usize),
    Done,
}

/// The bytes of an image, piece by piece. A piece has some 64 KiB, and what its last item has beyond them.
#[derive(Drop)]
pub struct ImagePieces<'a> {
    image: LentImage<'a>,
    next: Next,
}

// Appends the numbers of an image with so many facts.
fn put_numbers(apart: &Image, count: u64, out: &mut Vec<u8>) -> Result<(), NoMemory>
    ensures appends { OnOk result (out.new.items ≡ out.old.items ++ (codes "FXC1" ++ number_bytes apart.now count)) }
    ensures fit { OnOk result (AreNumbers apart.now count) }
{
    let next = (&apart.next_id, (&apart.next_tag, &count));
    let numbers = (&apart.last_starts, (&apart.promises, next));
    out.extend_from_slice(b"FXC1")?;
    (&apart.run, (&apart.clock, (&apart.begun, numbers))).put(out)
}

// Appends the numbers of an image, and how many facts it has.
#[tactic(auto, unfolding(crate::specs::Bytes::image_bytes, crate::specs::Bytes::IsImage))]
fn put_front(image: &LentImage<'_>, out: &mut Vec<u8>) -> Result<(), NoMemory>
    ensures bytes { OnOk result (out.new.items ++ bytes_at image.now (AtFacts 0) ≡ out.old.items ++ image_bytes (whole image.now)) }
    ensures fit { OnOk result (fit_at image.now (AtFacts 0) → IsImage (whole image.now)) }
{
    let facts = image.facts.as_slice();
    put_numbers(&image.apart, facts.len() as u64, out)?;
    Ok(())
}

// Appends items from this place on, until the piece is full, and answers the place of the next.
fn put_some<T: Spelled>(items: &[T], from: usize, out: &mut Vec<u8>) -> Result<usize, NoMemory>
    requires { from < length items.now }
    ensures bytes { IfOk result (λ next. out.new.items ++ each_bytes T.spelling (drop next items.now) ≡ out.old.items ++ each_bytes T.spelling (drop from items.now)) }
    ensures fit { IfOk result (λ next. Each T.is_fit (drop next items.now) → Each T.is_fit (drop from items.now)) }
    ensures further { IfOk result (λ next. from < next) }
    ensures within { IfOk result (λ next. next ≤ length items.now) }
{
    for place in from..items.len() {
        items[place].put(out)?;
        if out.len() >= PIECE {
            return Ok(place + 1);
        }
    }
    Ok(items.len())
}

// Appends the next piece behind the front, and answers where the bytes go on.
fn put_behind(image: &LentImage<'_>, next: Next, out: &mut Vec<u8>) -> Result<Next, NoMemory>
    ensures bytes { IfOk result (λ then. out.new.items ++ bytes_at image.now then ≡ out.old.items ++ bytes_at image.now next) }
    ensures fit { IfOk result (λ then. fit_at image.now then → fit_at image.now next) }
    ensures shorter { IfOk result (λ then. pieces_at image.now then ≤ pieces_at image.now next - 1) }
{
    match next {
        Next::Front => {
            put_front(image, out)?;
            Ok(Next::Facts(0))
        }
        Next::Facts(place) => {
            let facts = image.facts.as_slice();
            if place < facts.len() {
                return Ok(Next::Facts(put_some(facts, place, out)?));
            }
            let count = image.apart.fired.as_slice().len() as u64;
            count.put(out)?;
            Ok(Next::Fired(0))
        }
        Next::Fired(place) => {
            let fired = image.apart.fired.as_slice();
            if place < fired.len() {
                return Ok(Next::Fired(put_some(fired, place, out)?));
            }
            let count = image.apart.extras.as_slice().len() as u64;
            count.put(out)?;
            Ok(Next::Extras(0))
        }
        Next::Extras(place) => {
            let extras = image.apart.extras.as_slice();
            if place < extras.len() {
                return Ok(Next::Extras(put_some(extras, place, out)?));
            }
            Ok(Next::Done)
        }
        Next::Done => Ok(Next::Done),
    }
}

impl<'a> ImagePieces<'a> {
    /// All the bytes of an image.
    pub fn new(image: LentImage<'a>) -> ImagePieces<'a>
        ensures bytes { bytes_left result ≡ image_bytes (whole image.entry) }
        ensures fit { fit_left result → IsImage (whole image.entry) }
    {
        ImagePieces {
            image,
            next: Next::Front,
        }
    }

    /// Appends the next piece; `false` where all were given.
    pub fn put_next(&mut self, out: &mut Vec<u8>) -> Result<bool, NoMemory>
        ensures bytes { OnOk result (out.new.items ++ bytes_left self.new ≡ out.old.items ++ bytes_left self.old) }
        ensures fit { OnOk result (fit_left self.new → fit_left self.old) }
        ensures fewer { result ≡ Ok true → pieces_left self.new < pieces_left self.old }
        ensures end { result ≡ Ok false → (bytes_left self.new ≡ []) × fit_left self.new }
        ensures nothing { result ≡ Ok false → out.new.items ≡ out.old.items }
    {
        if self.next == Next::Done {
            return Ok(false);
        }
        self.next = put_behind(&self.image, self.next, out)?;
        Ok(true)
    }
}
