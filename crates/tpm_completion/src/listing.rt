//! Encodes the list in an answer to TPM2_GetCapability: the elements whose number is at least the
//! requested number, and at most as many as the client asks for.

ghost use Rattle.std.specs.Prelude.{◌≡◌, ◌≤◌, ◌<◌, ◌+◌, ◌*◌, ◌^◌, ◌++◌, List, [], ◌∷◌, length, take};
ghost use Rattle.std.specs.Int.{w32, to_le_bytes};
ghost use Rattle.tpm_actions_capability.specs.Element.{found_count, is_from};
ghost use Rattle.tpm_actions_capability.specs.declared.element.Element.{Element as ListedElement};
ghost use Rattle.tpm_completion.specs.Listing.{listing, text_of, told_text};

use arrayvec::ArrayVec;
use tpm_actions_capability::element::Element;
use tpm_bytes::Sink;

/// The maximum number of elements in one answer.
pub const ELEMENT_LIMIT: usize = 64;

/// The maximum size of one answer, in bytes: moreData, the capability, the count, and 64 elements
/// of eight bytes.
pub const LISTING_LIMIT: usize = 521;

/// All elements that a capability lists.
pub type Elements = ArrayVec<Element, ELEMENT_LIMIT>;

/// The encoding of an element in a list.
#[derive(Clone, Copy, PartialEq, Eq)]
pub enum Form {
    Value,
    Property,
    Algorithm,
    Selection,
}

/// An element with this number, and with the value that is listed for it.
pub fn element(number: u32, told: u32) -> Element
    ensures { result ≡ record { number = number; told = told } }
{
    Element { number, told }
}

/// The three octets that select PCRs.
fn octets(select: u32) -> [u8; 3]
    ensures { result ≡ take 3 (to_le_bytes w32 select) }
{
    let octets = select.to_le_bytes();
    [octets[0], octets[1], octets[2]]
}

fn tell(element: &Element, form: Form, text: &mut Sink<LISTING_LIMIT>)
    requires { length text.old + 8 ≤ LISTING_LIMIT }
    ensures told { text.new ≡ text.old ++ told_text form element.now }
    ensures few { length text.new ≤ length text.old + 8 }
{
    match form {
        Form::Value => text.append_u32(element.told),
        Form::Property => {
            text.append_u32(element.number);
            text.append_u32(element.told);
        }
        Form::Algorithm => {
            text.append_u16((element.number % (1 << 16)) as u16);
            text.append_u32(element.told);
        }
        Form::Selection => {
            text.append_u32(element.number);
            text.append_u8(3);
            text.append(&octets(element.told));
        }
    }
}

fn is_from(element: &Element, from: u32) -> bool
    ensures { result ≡ is_from from element.now }
{
    from <= element.number
}

/// The number of elements whose number is at least `from`.
fn found_count(elements: &[Element], from: u32) -> usize
    ensures { result ≡ found_count from elements.now }
{
    elements.iter().filter(|e| is_from(e, from)).count()
}

/// Writes an element, unless its number is less than `from` or no more elements may be written.
/// Returns how many more may be written.
#[tactic(auto, using(crate::proofs::Telling::telling_one))]
fn tell_if(
    element: &Element,
    form: Form,
    from: u32,
    left: usize,
    text: &mut Sink<LISTING_LIMIT>,
) -> usize
    requires { length text.old + 8 * left ≤ LISTING_LIMIT }
    ensures told { (others : List ListedElement)
        → text.new ++ text_of form from result others
        ≡ text.old ++ text_of form from left (element.now ∷ others) }
    ensures room { length text.new + 8 * result ≤ LISTING_LIMIT }
{
    if left == 0 || !is_from(element, from) {
        return left;
    }
    tell(element, form, text);
    left - 1
}

/// Writes at most `count` of the elements whose number is at least `from`.
fn tell_elements(
    elements: &[Element],
    form: Form,
    from: u32,
    count: usize,
    text: &mut Sink<LISTING_LIMIT>,
)
    requires { length text.old + 8 * count ≤ LISTING_LIMIT }
    ensures { text.new ≡ text.old ++ text_of form from count elements.now }
{
    let mut left = count;
    for element in elements {
        left = tell_if(element, form, from, left, text);
    }
}

/// Writes the answer for a capability: at most `count` of the elements whose number is at least
/// `from`.
pub fn list(
    elements: &[Element],
    form: Form,
    capability: u32,
    from: u32,
    count: u32,
    text: &mut Sink<LISTING_LIMIT>,
)
    requires { text.old ≡ [] }
    ensures { text.new ≡ listing form capability from count elements.now }
{
    let found = found_count(elements, from);
    let told = found.min((count as usize).min(ELEMENT_LIMIT));
    text.append_u8(u8::from(told < found));
    text.append_u32(capability);
    text.append_u32(told as u32);
    tell_elements(elements, form, from, told, text);
}
