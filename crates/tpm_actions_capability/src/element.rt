//! An element of a capability's list, and how part of a list is returned: the requested number of
//! elements, starting at a given number (TPM 2.0 Library, Part 3, section 30.2).

ghost use Rattle.std.specs.Prelude.{◌≡◌, ◌≤◌, ◌+◌, ◌*◌, ◌++◌, List, [], ◌∷◌, length, take};
ghost use Rattle.std.specs.Int.{w32, to_le_bytes};
ghost use Rattle.tpm_types_common.specs.Limits.{answer_limit};
ghost use Rattle.tpm_actions_capability.specs.Element.{by_itself, element, found_count, is_from, listing, text_of, told_text};
ghost use Rattle.tpm_actions_capability.specs.declared.element.Element.{Element as ListedElement};

use arrayvec::ArrayVec;
use tpm_record::rows::answer::Parameters;

/// The maximum number of elements in an answer. No capability has more elements.
pub(crate) const ELEMENT_LIMIT: usize = 64;

/// All elements that a capability lists.
pub(crate) type Elements = ArrayVec<Element, ELEMENT_LIMIT>;

/// An element that a capability lists.
#[derive(Clone, Copy, PartialEq, Eq, Default)]
pub struct Element {
    /// The number that is compared with the requested property, to find the start of the list.
    pub number: u32,
    pub told: u32,
}

/// How an element is listed.
#[derive(Clone, Copy, PartialEq, Eq)]
pub enum Telling {
    /// The value: a handle, or the attributes of a command.
    Value,
    /// The number and the value: a property.
    NumberAndValue,
    /// The number in two bytes, and the attributes of an algorithm.
    Algorithm,
    /// The number, and the PCRs that have this property.
    Selection,
}

/// The three octets that select PCRs.
fn octets(select: u32) -> [u8; 3]
    ensures { result ≡ take 3 (to_le_bytes w32 select) }
{
    let octets = select.to_le_bytes();
    [octets[0], octets[1], octets[2]]
}

impl Element {
    /// An element with this number, and with the value that is listed for it.
    pub(crate) fn new(number: u32, told: u32) -> Element
        ensures { result ≡ element number told }
    {
        Element { number, told }
    }

    /// An element whose listed value is its own number.
    pub(crate) fn by_itself(number: u32) -> Element
        ensures { result ≡ by_itself number }
    {
        Element::new(number, number)
    }

    fn is_from(&self, from: u32) -> bool
        ensures { result ≡ is_from from self.now }
    {
        from <= self.number
    }

    fn tell(&self, telling: Telling, text: &mut Parameters)
        requires { length text.old + 8 ≤ answer_limit }
        ensures told { text.new ≡ text.old ++ told_text telling self.now }
        ensures few { length text.new ≤ length text.old + 8 }
    {
        match telling {
            Telling::Value => text.append_u32(self.told),
            Telling::NumberAndValue => {
                text.append_u32(self.number);
                text.append_u32(self.told);
            }
            Telling::Algorithm => {
                text.append_u16((self.number % (1 << 16)) as u16);
                text.append_u32(self.told);
            }
            Telling::Selection => {
                text.append_u32(self.number);
                text.append_u8(3);
                text.append(&octets(self.told));
            }
        }
    }
}

/// Counts the elements whose number is at least `from`.
fn found_count(elements: &[Element], from: u32) -> usize
    ensures { result ≡ found_count from elements.now }
{
    elements.iter().filter(|e| e.is_from(from)).count()
}

/// Writes an element if its number is at least `from` and the limit is not reached. Returns how
/// many more elements may be written after it.
#[tactic(auto, using(crate::proofs::Telling::telling_one))]
fn tell_if(e: &Element, telling: Telling, from: u32, left: usize, text: &mut Parameters) -> usize
    requires { length text.old + 8 * left ≤ answer_limit }
    ensures told { (others : List ListedElement)
        → text.new ++ text_of telling from result others
        ≡ text.old ++ text_of telling from left (e.now ∷ others) }
    ensures room { length text.new + 8 * result ≤ answer_limit }
{
    if left == 0 || !e.is_from(from) {
        return left;
    }
    e.tell(telling, text);
    left - 1
}

/// Writes the first elements whose number is at least `from`, up to the limit.
fn tell_elements(
    elements: &[Element],
    telling: Telling,
    from: u32,
    count: usize,
    text: &mut Parameters,
)
    requires { length text.old + 8 * count ≤ answer_limit }
    ensures { text.new ≡ text.old ++ text_of telling from count elements.now }
{
    let mut left = count;
    for e in elements {
        left = tell_if(e, telling, from, left, text);
    }
}

/// Lists the requested number of a capability's elements, starting at a given number.
pub(crate) fn list(
    elements: &[Element],
    telling: Telling,
    capability: u32,
    from: u32,
    count: u32,
    text: &mut Parameters,
)
    requires { text.old ≡ [] }
    ensures { text.new ≡ listing telling capability from count elements.now }
{
    let found = found_count(elements, from);
    let told = found.min((count as usize).min(ELEMENT_LIMIT));
    text.append_u8(u8::from(told < found));
    text.append_u32(capability);
    text.append_u32(told as u32);
    tell_elements(elements, telling, from, told, text);
}
