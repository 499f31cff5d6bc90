//! What codes say, for people.
ghost use Rattle.std.specs.Prelude.{◌≡◌, List, ℕ, length};
ghost use Rattle.kit_c.specs.Calls.{filled};

use crate::text::copy_front;

// What a code says: nothing where it is none.
fn text_of_code(code: i32) -> &'static str {
    match code {
        0 => "done",
        1 => "memory was refused",
        2 => "a handle that is read has nothing",
        3 => "a handle has a thing of another kind",
        4 => "the handle that is to be filled has something",
        5 => "a text is not UTF-8",
        6 => "a number stands for nothing here",
        7 => "nothing is held under this number",
        8 => "there is no row of this number",
        9 => "there is no point of what is asked for",
        10 => "the writer was shut down",
        11 => "there is no instrument of this number",
        12 => "the instrument takes no value below 0",
        13 => "a total would leave 64 bits",
        14 => "the time is not after that of the last collection",
        15 => "the start is not after the start so far",
        16 => "a call of another thread has the writer",
        17 => "the writer accepted as many changes as it may",
        18 => "the writer has as many seats as it may",
        19 => "there is no item of this number",
        20 => "a key is empty",
        30 =>
            "a name begins with a letter, has letters, digits, '_', '.', '-' and '/' alone, and at most 255 of them",
        31 => "a unit has ASCII characters alone, and at most 63 of them",
        32 => "bounds do not strictly rise, or are more than 1024",
        33 =>
            "a new name begins with a letter, has letters, digits, '_', '.', '-' and '/' alone, and at most 255 of them",
        34 => "a view of every name gives a new one",
        35 => "an aggregation does not fit its instrument",
        36 => "two instruments feed one stream",
        37 => "the limit is 0",
        38 => "the scope of an instrument is that of tombstones",
        42 => "a value is of another shape",
        50 => "the message goes to another id",
        60 => "bytes end within what they begin",
        61 => "bytes do not begin as an export or a message does",
        62 => "the version is none that is known",
        63 => "a value is not in its one form",
        64 => "the checksum is not that of the bytes before it",
        65 => "the values are none that an export can have",
        70 => "a log has as many recordings as it may",
        80 => "the bounds of a point do not rise as doubles",
        81 => "the request has more bytes than one may have",
        82 => "bytes begin no field that can stand there",
        83 => "a resource names no service",
        84 => "a resource names no instance",
        85 => "the instance of a resource is no UUID",
        86 => "a scope comes in two versions",
        87 => "a metric is an exponential histogram",
        88 => "a metric is a summary",
        89 => "a metric has no data",
        90 => "a metric is told as deltas",
        91 => "a metric is not said to be cumulative",
        92 => "a point has no recorded value",
        93 => "the start of a point is not known",
        94 => "the value of a point is a double",
        95 => "a point has no value",
        96 => "a histogram has no sum",
        97 => "a double of a histogram is no whole number",
        98 => "a double of a histogram may stand for several whole numbers",
        99 => "the bounds of a histogram do not strictly rise",
        100 => "a histogram has a least or a greatest value alone",
        101 => "an attribute of a point has no key",
        102 => "two attributes of a point have one key",
        103 => "the value of an attribute is of a kind that is not known",
        104 => "what a request says together makes no export",
        106 => "a point of an export has the scope of tombstones",
        107 => "a text has more than 1024 bytes",
        108 => "a point has more than 128 attributes",
        110 => "the incarnation is of another service than the archive",
        111 => "the incarnation is an archive's",
        112 => "the incarnation was adopted before",
        113 => "a point of the incarnation is a conflict",
        114 => "the points of the incarnation are not of one time",
        115 => "no export has the points of the incarnation",
        116 => "a number leaves the range of archives",
        117 => "there would be more totals than the limit",
        118 => "the time is not later than that of the last export",
        119 => "the start is not later than the last export",
        120 => "incarnations were adopted since the last export",
        _ => "",
    }
}

/// Copies the front of the text of a code that has room, and answers how many bytes the whole text has, in UTF-8 and with no 0 at its end:
/// none where the number is no code. It is a clause that begins small and has no full stop.
#[unsafe(no_mangle)]
pub extern "C" fn kit_code_text(code: i32, into: &mut [u8]) -> usize
    ensures { (text : List ℕ) × (into.new ≡ filled text into.old) × (result ≡ length text) }
{
    copy_front(text_of_code(code).as_bytes(), into)
}
