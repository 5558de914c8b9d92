//! Addresses and references, read letter by letter (RFC 4826, sections 3.4.5 and 4.4.5; RFC 3986,
//! section 4.2).
ghost use Rattle.std.specs.Prelude.{◌≡◌, ◌==◌, if◌then◌else◌, chars, fold};
ghost use Rattle.usage_docs.specs.declared.address_states.AddressState.TheVariants.{Other};
ghost use Rattle.usage_docs.specs.declared.address_states.SegmentState.TheVariants.{Empty};
ghost use Rattle.usage_docs.specs.ReferenceForms.{is_http_uri, is_relative_reference, trim_text};
ghost use Rattle.usage_docs.specs.ContentTexts.{content_text};
ghost use Rattle.usage_docs.specs.readers.AddressStates.{is_trimmed_space, address_state_after};
ghost use Rattle.usage_docs.specs.readers.AddressStates.{is_whole_address};
ghost use Rattle.usage_docs.specs.readers.AddressStates.{segment_state_after, is_reference_segment};

use xml_names::is_space;
use xml_tree::{Element, Node};

/// How much of an address has been read.
#[derive(Clone, Copy)]
pub(crate) enum AddressState {
    Start,
    H,
    Ht,
    Htt,
    Http,
    Https,
    Colon,
    Slash,
    /// `http://` or `https://`, and nothing after it but ignored white space.
    Whole,
    GoesOn,
    Other,
}

/// How much of a reference's first segment has been read.
#[derive(Clone, Copy)]
pub(crate) enum SegmentState {
    Empty,
    Begun,
    Ended,
    Wrong,
}

// Whether a letter is white space that is ignored at the ends.
fn is_white(trims: bool, letter: char) -> bool
    ensures exact { result ≡ is_trimmed_space trims letter }
{
    trims && is_space(letter)
}

// The next state, if the letter is the expected one.
fn state_if_letter(letter: char, expected: char, next: AddressState) -> AddressState
    ensures exact { result ≡ (if letter == expected then next else Other) }
{
    if letter == expected {
        next
    } else {
        AddressState::Other
    }
}

// The address after one more letter.
fn address_state_after(trims: bool, address: AddressState, letter: char) -> AddressState
    ensures exact { result ≡ address_state_after (is_trimmed_space trims) address letter }
{
    match address {
        AddressState::Start if is_white(trims, letter) => AddressState::Start,
        AddressState::Start => state_if_letter(letter, 'h', AddressState::H),
        AddressState::H => state_if_letter(letter, 't', AddressState::Ht),
        AddressState::Ht => state_if_letter(letter, 't', AddressState::Htt),
        AddressState::Htt => state_if_letter(letter, 'p', AddressState::Http),
        AddressState::Http if letter == ':' => AddressState::Colon,
        AddressState::Http => state_if_letter(letter, 's', AddressState::Https),
        AddressState::Https => state_if_letter(letter, ':', AddressState::Colon),
        AddressState::Colon => state_if_letter(letter, '/', AddressState::Slash),
        AddressState::Slash => state_if_letter(letter, '/', AddressState::Whole),
        AddressState::Whole if is_white(trims, letter) => AddressState::Whole,
        AddressState::Whole => AddressState::GoesOn,
        AddressState::GoesOn => AddressState::GoesOn,
        AddressState::Other => AddressState::Other,
    }
}

impl AddressState {
    // The address after one more text.
    fn after_text(self, trims: bool, text: &str) -> AddressState
        ensures exact { result
            ≡ fold (address_state_after (is_trimmed_space trims)) self (chars text.now) }
    {
        text.chars().fold(
            self,
            |address, letter| address_state_after(trims, address, letter),
        )
    }

    // Whether the address is whole and has more.
    fn is_whole(self) -> bool
        ensures exact { result ≡ is_whole_address self }
    {
        matches!(self, AddressState::GoesOn)
    }
}

/// Whether a text is an address of HTTP.
#[tactic(auto, using(crate::proofs::Addresses::address_is))]
pub(crate) fn is_http_uri(text: &str) -> bool
    ensures exact { result ≡ is_http_uri (chars text.now) }
{
    AddressState::Start.after_text(false, text).is_whole()
}

/// Whether the text of an element's content is an address of HTTP, without the white space at its
/// ends.
pub(crate) fn is_http_uri_inside(element: &Element) -> bool
    ensures exact { result ≡ is_http_uri (trim_text (content_text element.now.content)) }
{
    let mut address = AddressState::Start;
    for node in element.nodes() {
        if let Node::Chars(text) = node {
            address = address.after_text(true, text.as_str());
        }
    }
    address.is_whole()
}

impl SegmentState {
    // Whether it is a segment that a relative reference may begin with.
    fn is_valid_segment(self) -> bool
        ensures exact { result ≡ is_reference_segment self }
    {
        match self {
            SegmentState::Empty => false,
            SegmentState::Begun => true,
            SegmentState::Ended => true,
            SegmentState::Wrong => false,
        }
    }
}

// The first segment after one more letter.
fn segment_state_after(segment: SegmentState, letter: char) -> SegmentState
    ensures exact { result ≡ segment_state_after segment letter }
{
    match segment {
        SegmentState::Empty if letter == '/' => SegmentState::Wrong,
        SegmentState::Empty if letter == ':' => SegmentState::Wrong,
        SegmentState::Empty => SegmentState::Begun,
        SegmentState::Begun if letter == '/' => SegmentState::Ended,
        SegmentState::Begun if letter == ':' => SegmentState::Wrong,
        SegmentState::Begun => SegmentState::Begun,
        SegmentState::Ended => SegmentState::Ended,
        SegmentState::Wrong => SegmentState::Wrong,
    }
}

// The first segment of a text.
fn first_segment(text: &str) -> SegmentState
    ensures segment_in_front { result ≡ fold segment_state_after Empty (chars text.now) }
{
    text.chars().fold(
        SegmentState::Empty,
        |segment, letter| segment_state_after(segment, letter),
    )
}

/// Whether a text is a relative reference that begins with a segment.
#[tactic(auto, using(crate::proofs::Segments::segment_is))]
pub(crate) fn is_relative_reference(text: &str) -> bool
    ensures exact { result ≡ is_relative_reference (chars text.now) }
{
    first_segment(text).is_valid_segment()
}
