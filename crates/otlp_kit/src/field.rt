//! Fields of a message, read one by one.
ghost use Rattle.std.specs.Prelude.{◌≡◌, ◌≢◌, ◌/◌, ◌++◌, [], ◌∷◌, length, OnOk, Some, None, Ok, Err, IfOk, IfErr, IfSome, IfNone};
ghost use Rattle.otlp_kit.specs.Fields.{groups_at, varint_at, varint_content, eight_content, block_content, four_content, content_at, next_field, and_then};
ghost use Rattle.otlp_kit.specs.Contents.{number_in, eight_in, block_in, eights, eights_in, free, number_once, eight_once, text_once, fits, name_once};
ghost use Rattle.otlp_kit.specs.declared.request_fault.RequestReason.TheVariants as reasons;

use crate::limits::is_long;
use crate::span::Span;
use crate::{RequestFault, RequestReason};
use attr_kit::{NoMemory, Txt};
use std::alloc::Global;

/// What stands behind a tag.
#[derive(Drop)]
pub(crate) enum Content<'a> {
    Varint(u64),
    Eight(u64),
    Block(Span<'a>),
    Four,
}

/// A field: the place of its tag, its number and its content.
#[derive(Drop)]
pub(crate) struct Field<'a> {
    pub(crate) at: usize,
    pub(crate) number: u64,
    pub(crate) content: Content<'a>,
}

// A number in at most so many groups of seven bits, the lowest first.
fn groups(span: &mut Span<'_>, most: u32) -> Option<u64>
    ensures some { IfSome result (λ n. groups_at most span.old.at span.old.bytes ≡ Some (n, span.new)) }
    ensures none { IfNone result (groups_at most span.old.at span.old.bytes ≡ None) }
{
    if most == 0 {
        return None;
    }
    let byte = u64::from(span.byte()?);
    if byte < 128 {
        return Some(byte);
    }
    let high = groups(span, most - 1)?;
    if high >= 1 << 57 {
        return None;
    }
    Some(128 * high + (byte - 128))
}

// The number that comes next.
#[tactic(auto, unfolding(crate::specs::Fields::varint_at))]
#[inline(always)]
fn varint(span: &mut Span<'_>) -> Option<u64>
    ensures some { IfSome result (λ n. varint_at span.old ≡ Some (n, span.new)) }
    ensures none { IfNone result (varint_at span.old ≡ None) }
{
    groups(span, 10)
}

#[inline(always)]
fn varint_content<'a>(span: &mut Span<'a>) -> Result<Content<'a>, RequestFault>
    ensures ok { IfOk result (λ c. varint_content span.old (varint_at span.old) ≡ Ok (c, span.new)) }
    ensures err { IfErr result (λ f. varint_content span.old (varint_at span.old) ≡ Err f) }
{
    let at = span.at();
    match varint(span) {
        Some(number) => Ok(Content::Varint(number)),
        None => Err(RequestReason::Malformed.at(at)),
    }
}

#[inline(always)]
fn eight_content<'a>(at: usize, span: &mut Span<'a>) -> Result<Content<'a>, RequestFault>
    ensures ok { IfOk result (λ c. eight_content at span.old ≡ Ok (c, span.new)) }
    ensures err { IfErr result (λ f. eight_content at span.old ≡ Err f) }
{
    match span.eight() {
        Some(number) => Ok(Content::Eight(number)),
        None => Err(RequestReason::Malformed.at(at)),
    }
}

// As many bytes as the number before them says.
#[inline(always)]
fn block_content<'a>(at: usize, span: &mut Span<'a>) -> Result<Content<'a>, RequestFault>
    ensures ok { IfOk result (λ c. block_content at span.old (varint_at span.old) ≡ Ok (c, span.new)) }
    ensures err { IfErr result (λ f. block_content at span.old (varint_at span.old) ≡ Err f) }
{
    let place = span.at();
    let Some(len) = varint(span) else {
        return Err(RequestReason::Malformed.at(place));
    };
    match span.take(len as usize) {
        Some(block) => Ok(Content::Block(block)),
        None => Err(RequestReason::Malformed.at(at)),
    }
}

#[inline(always)]
fn four_content<'a>(at: usize, span: &mut Span<'a>) -> Result<Content<'a>, RequestFault>
    ensures ok { IfOk result (λ c. four_content at span.old ≡ Ok (c, span.new)) }
    ensures err { IfErr result (λ f. four_content at span.old ≡ Err f) }
{
    match span.take(4) {
        Some(_) => Ok(Content::Four),
        None => Err(RequestReason::Malformed.at(at)),
    }
}

#[tactic(auto, unfolding(crate::specs::Fields::content_at))]
#[inline(always)]
fn content_of<'a>(at: usize, wire: u64, span: &mut Span<'a>) -> Result<Content<'a>, RequestFault>
    ensures ok { IfOk result (λ c. content_at at wire span.old ≡ Ok (c, span.new)) }
    ensures err { IfErr result (λ f. content_at at wire span.old ≡ Err f) }
{
    match wire {
        0 => varint_content(span),
        1 => eight_content(at, span),
        2 => block_content(at, span),
        5 => four_content(at, span),
        _ => Err(RequestReason::Malformed.at(at)),
    }
}

fn push_number(numbers: &mut Vec<u64>, number: u64) -> Result<(), NoMemory>
    ensures { OnOk result (numbers.new.items ≡ numbers.old.items ++ number ∷ []) }
{
    numbers.push(number)?;
    Ok(())
}

// The numbers of a packed list, behind those of earlier fields.
fn push_packed(numbers: &mut Vec<u64>, list: &mut Span<'_>) -> Result<(), NoMemory>
    ensures { OnOk result (numbers.new.items ≡ numbers.old.items ++ eights (length list.old.bytes / 8) list.old.bytes) }
{
    for _ in 0..list.len() / 8 {
        let Some(number) = list.eight() else {
            return Ok(());
        };
        numbers.push(number)?;
    }
    Ok(())
}

impl<'a> Field<'a> {
    /// Puts the numbers of a repeated field, packed or not, behind those of earlier fields.
    pub(crate) fn push_eights(&self, numbers: &mut Vec<u64>) -> Result<(), RequestFault>
        ensures ok { OnOk result (and_then (eights_in self.now) (λ more. Ok (numbers.old.items ++ more))
            ≡ Ok numbers.new.items) }
        ensures err { IfErr result (λ f. f.why ≢ reasons.NoMemory → eights_in self.now ≡ Err f) }
    {
        match &self.content {
            Content::Eight(number) => {
                push_number(numbers, *number)?;
                Ok(())
            }
            Content::Block(list) if list.len() % 8 == 0 => {
                push_packed(numbers, &mut list.copy())?;
                Ok(())
            }
            _ => Err(RequestReason::Malformed.at(self.at)),
        }
    }

    /// The number of a field that has one.
    pub(crate) fn number(&self) -> Result<u64, RequestFault>
        ensures value { result ≡ number_in self.now }
    {
        match &self.content {
            Content::Varint(number) => Ok(*number),
            _ => Err(RequestReason::Malformed.at(self.at)),
        }
    }

    /// The number of a field that has one in eight bytes.
    pub(crate) fn eight(&self) -> Result<u64, RequestFault>
        ensures value { result ≡ eight_in self.now }
    {
        match &self.content {
            Content::Eight(number) => Ok(*number),
            _ => Err(RequestReason::Malformed.at(self.at)),
        }
    }

    /// The bytes of a field that has a message, a text or a packed list.
    pub(crate) fn block(&self) -> Result<Span<'a>, RequestFault>
        ensures value { result ≡ block_in self.now }
    {
        match &self.content {
            Content::Block(block) => Ok(block.copy()),
            _ => Err(RequestReason::Malformed.at(self.at)),
        }
    }

    /// A field that is not repeated must come once.
    pub(crate) fn first<A>(&self, held: &Option<A>) -> Result<(), RequestFault>
        ensures value { result ≡ free self.now held.now }
    {
        match held {
            None => Ok(()),
            Some(_) => Err(RequestReason::Malformed.at(self.at)),
        }
    }

    /// The number of a field that must come once.
    pub(crate) fn number_once<A>(&self, held: &Option<A>) -> Result<u64, RequestFault>
        ensures value { result ≡ number_once self.now held.now }
    {
        self.first(held)?;
        self.number()
    }

    /// The same of a number in eight bytes.
    pub(crate) fn eight_once<A>(&self, held: &Option<A>) -> Result<u64, RequestFault>
        ensures value { result ≡ eight_once self.now held.now }
    {
        self.first(held)?;
        self.eight()
    }

    /// That a text is not longer than one that has a limit.
    pub(crate) fn fits(&self, text: &str) -> Result<(), RequestFault>
        ensures ok { OnOk result (fits self.now text.now ≡ Ok text.now) }
        ensures err { IfErr result (λ f. fits self.now text.now ≡ Err f) }
    {
        if is_long(text) {
            return Err(RequestReason::TooLongText.at(self.at));
        }
        Ok(())
    }

    /// The text of a field that must come once, and has a limit.
    pub(crate) fn name<A>(&self, alloc: Global, held: &Option<A>) -> Result<Txt, RequestFault>
        ensures ok { IfOk result (λ text. name_once self.now held.now ≡ Ok text) }
        ensures err { IfErr result (λ f. f.why ≢ reasons.NoMemory → name_once self.now held.now ≡ Err f) }
    {
        let text = self.text(alloc, held)?;
        self.fits(text.as_str())?;
        Ok(text)
    }

    /// The text of a field that must come once.
    pub(crate) fn text<A>(&self, alloc: Global, held: &Option<A>) -> Result<Txt, RequestFault>
        ensures ok { IfOk result (λ text. text_once self.now held.now ≡ Ok text) }
        ensures err { IfErr result (λ f. f.why ≢ reasons.NoMemory → text_once self.now held.now ≡ Err f) }
    {
        self.first(held)?;
        let block = self.block()?;
        match block.text() {
            Some(text) => Ok(Txt::from_str(alloc, text)?),
            None => Err(RequestReason::NotText.at(block.at())),
        }
    }

    /// Takes the next field off, where one is left.
    #[tactic(auto, unfolding(crate::specs::Fields::next_field))]
    #[inline(always)]
    pub(crate) fn next(span: &mut Span<'a>) -> Result<Option<Field<'a>>, RequestFault>
        ensures ok { IfOk result (λ f. next_field span.old ≡ Ok (f, span.new)) }
        ensures err { IfErr result (λ f. next_field span.old ≡ Err f) }
    {
        if span.len() == 0 {
            return Ok(None);
        }
        let at = span.at();
        match varint(span) {
            Some(tag) if tag >= 8 && tag < 1 << 32 => {
                let content = content_of(at, tag % 8, span)?;
                Ok(Some(Field {
                    at,
                    number: tag / 8,
                    content,
                }))
            }
            _ => Err(RequestReason::Malformed.at(at)),
        }
    }
}
