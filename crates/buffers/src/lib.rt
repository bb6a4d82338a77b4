// The two lent buffers: the tally, four 64-bit words a view, and the network, two words a message; four in the wide form, which runs are carried over
// from and to.
#![tactic(auto)]

ghost use Rattle.std.specs.Prelude.{◌≡◌, true, cond, [], ◌∷◌, ◌++◌, ◌+◌, ◌-◌, ◌*◌, ◌^◌, min, ◌<◌, ◌≤◌, length, take, drop};
ghost use Rattle.base.specs.Scan.{first};
ghost use Rattle.base.specs.Sets.{member};
ghost use Rattle.types.specs.Quantities.{width};
ghost use Rattle.types.specs.Messages.{kind_of, view_in, processor_in};
ghost use Rattle.model.specs.State.{capacity, slot, word, added, entered_word, heard_word, marks_word, mark_bit, packed_word, held_at, posted, removed};
ghost use Rattle.buffers.specs.Tally.{added_word};
ghost use Rattle.buffers.specs.Network.{packable, appended, found, taken, begins_with, time_place};
ghost use Rattle.buffers.specs.Kinds.{stored_as, stored_here, stored};
ghost use Rattle.buffers.specs.Zeros.{zeroed};

use types::{Form, Message};

// The words of a view in the tally.
pub const ROW_WORDS: usize = 4;

// Which of them holds what.
const ENTERED: usize = 0;

const VIEWS_HEARD: usize = 1;

const VOTES_HEARD: usize = 2;

const MARKS: usize = 3;

// The bits of the marks.
const VIEW_CERTIFICATE_FORMED: u64 = 0;

const QUORUM_CERTIFICATE_FORMED: u64 = 1;

// A packed word: the view above nine bits, of which three are for the kind less one and six for the processor.
const VIEW_UNIT: u64 = 512;

const KIND_UNIT: u64 = 64;

const KIND_PLACES: u64 = 8;

const PROCESSOR_PLACES: u64 = 64;

// Views from this one on have no packed word.
const VIEWS_PACKED: u64 = 36028797018963968;

// The first k words become 0; where there are fewer nothing changes.
pub fn zero_words(words: &mut [u64], k: usize)
    ensures { words.new ≡ zeroed words.old k }
{
    if k <= words.len() {
        words[..k].fill(0);
    }
}

// Where word j of view w stands; a place that fits no number lies beyond the end of any tally.
fn place(w: u64, j: usize) -> usize
    ensures { result ≡ min (slot w j) (2 ^ 64 - 1) }
{
    (w as usize).saturating_mul(ROW_WORDS).saturating_add(j)
}

// Word j of view w; 0 beyond the end.
fn read(tally: &[u64], w: u64, j: usize) -> u64
    ensures { result ≡ word tally.now w j }
{
    tally.get(place(w, j)).copied().unwrap_or(0)
}

// Bit p of word j of view w is set; a bit that the word has not, or a word beyond the end, changes nothing.
fn add(tally: &mut [u64], w: u64, j: usize, p: u64)
    ensures { tally.new ≡ added_word tally.old w j p }
{
    let at = place(w, j);
    if at < tally.len() {
        tally[at] = base::insert(tally[at], p);
    }
}

// The word that keeps the signers heard: of view messages, or of votes.
fn heard_word(stage: bool) -> usize
    ensures { result ≡ heard_word stage }
{
    if stage { VOTES_HEARD } else { VIEWS_HEARD }
}

// The bit that says that the stage's certificate was formed.
fn mark_bit(stage: bool) -> u64
    ensures { result ≡ mark_bit stage }
{
    if stage {
        QUORUM_CERTIFICATE_FORMED
    } else {
        VIEW_CERTIFICATE_FORMED
    }
}

// The correct processors that entered view w.
pub fn entered(tally: &[u64], w: u64) -> u64
    ensures { result ≡ word tally.now w entered_word }
{
    read(tally, w, ENTERED)
}

// Those whose view message, or whose vote, the leader of view w heard.
pub fn heard(tally: &[u64], stage: bool, w: u64) -> u64
    ensures { result ≡ word tally.now w (heard_word stage) }
{
    read(tally, w, heard_word(stage))
}

// Whether the stage's certificate for view w was formed.
pub fn is_marked(tally: &[u64], stage: bool, w: u64) -> bool
    ensures { result ≡ member (word tally.now w marks_word) (mark_bit stage) }
{
    base::member(read(tally, w, MARKS), mark_bit(stage))
}

// Processor p entered view w.
pub fn enter(tally: &mut [u64], w: u64, p: u64)
    ensures { tally.new ≡ added_word tally.old w entered_word p }
{
    add(tally, w, ENTERED, p);
}

// The leader of view w heard p.
pub fn hear(tally: &mut [u64], stage: bool, w: u64, p: u64)
    ensures { tally.new ≡ added_word tally.old w (heard_word stage) p }
{
    add(tally, w, heard_word(stage), p);
}

// The stage's certificate for view w was formed.
pub fn mark(tally: &mut [u64], stage: bool, w: u64)
    ensures { tally.new ≡ added tally.old w marks_word (mark_bit stage) }
{
    add(tally, w, MARKS, mark_bit(stage));
}

// How many messages fit.
pub fn capacity(form: Form, network: &[u64]) -> usize
    ensures { result ≡ capacity form network.now }
{
    let words = network.len();
    match form {
        Form::Wide => words / Form::WIDE_WORDS,
        Form::Packed => words / Form::PACKED_WORDS,
    }
}

// Whether a packed word can say the message.
fn is_packable(m: Message) -> bool
    ensures { result ≡ packable m }
{
    m.view() < VIEWS_PACKED && m.processor() < PROCESSOR_PLACES
}

// The packed word of a message.
fn pack(m: Message) -> u64
    requires { packable m ≡ true }
    ensures { result ≡ packed_word (kind_of m) (view_in m) (processor_in m) }
{
    m.view() * VIEW_UNIT + (m.kind() - 1) * KIND_UNIT + m.processor()
}

// The message behind the h that are held, in four words. What is written is another for each form, as what is read in `decode` is: so each has a function.
fn put_wide(network: &mut [u64], h: usize, m: Message, sent: u64)
    requires { width Form.Wide * h + width Form.Wide ≤ length network.old }
    ensures { network.new ≡ posted Form.Wide network.old h sent (m ∷ []) }
{
    let at = Form::WIDE_WORDS * h;
    network[at] = m.kind();
    network[at + 1] = m.view();
    network[at + 2] = m.processor();
    network[at + 3] = sent;
}

// The same in two words, where they can say it.
fn put_packed(network: &mut [u64], h: usize, m: Message, sent: u64)
    requires { width Form.Packed * h + width Form.Packed ≤ length network.old }
    ensures { network.new ≡ cond (packable m) (posted Form.Packed network.old h sent (m ∷ [])) network.old }
{
    if is_packable(m) {
        let at = Form::PACKED_WORDS * h;
        network[at] = pack(m);
        network[at + 1] = sent;
    }
}

// The message behind the held ones; where there is no room, or where the form's words cannot say it, nothing changes.
pub fn append(form: Form, network: &mut [u64], held: usize, message: Message, sent: u64)
    ensures { network.new ≡ appended form network.old held sent message }
{
    if held < capacity(form, network) {
        match form {
            Form::Wide => put_wide(network, held, message, sent),
            Form::Packed => put_packed(network, held, message, sent),
        }
    }
}

// The first of h messages whose first word is x, or h. A `for` over the places takes twice as many instructions as this loop, `find` over them a sixth more.
fn scan(network: &[u64], h: usize, x: u64) -> usize
    requires { width Form.Packed * h ≤ length network.now }
    ensures { result ≡ first (begins_with network.now x) h }
{
    let mut i = 0;
    while i < h {
        if network[Form::PACKED_WORDS * i] == x {
            return i;
        }
        i += 1;
    }
    h
}

// The first of equal ones; `held` where there is none, where so many do not fit, and where no packed word says the message.
pub fn find(network: &[u64], held: usize, message: Message) -> usize
    ensures { result ≡ found network.now held message }
{
    if held <= capacity(Form::Packed, network) && is_packable(message) {
        scan(network, held, pack(message))
    } else {
        held
    }
}

// Of h messages the one at i goes: those behind it move down over it, and the last place becomes 0.
fn take_out(network: &mut [u64], h: usize, i: usize)
    requires { (i < h) × (width Form.Packed * h ≤ length network.old) }
    ensures { network.new ≡ removed Form.Packed network.old h i }
{
    let at = Form::PACKED_WORDS * i;
    let end = Form::PACKED_WORDS * h;
    network.copy_within(at + Form::PACKED_WORDS..end, at);
    network[end - Form::PACKED_WORDS..end].fill(0);
}

// Message i goes, the rest close up, and the place that falls free is 0; where there is no such message nothing changes.
pub fn remove(network: &mut [u64], held: usize, i: usize)
    ensures { network.new ≡ taken Form.Packed network.old held i }
{
    if i < held && held <= capacity(Form::Packed, network) {
        take_out(network, held, i);
    }
}

// A message by its kind, view and processor; none where the kind is no message's. A kind is a number in the network's words (documents 01 and 02), so here it is one.
pub fn stored_as(kind: u64, w: u64, p: u64) -> Option<Message>
    ensures { result ≡ stored_as kind w p }
{
    match kind {
        1 => Some(Message::View(w, p)),
        2 => Some(Message::Vote(w, p)),
        3 => Some(Message::Vc(w, p)),
        4 => Some(Message::Qc(w, p)),
        _ => None,
    }
}

// Message i of a network of four words a message.
fn decode_wide(network: &[u64], i: usize) -> Option<Message>
    requires { width Form.Wide * i + width Form.Wide ≤ length network.now }
    ensures { result ≡ stored_here Form.Wide network.now i }
{
    let at = Form::WIDE_WORDS * i;
    stored_as(network[at], network[at + 1], network[at + 2])
}

// Message i of a network of two.
fn decode_packed(network: &[u64], i: usize) -> Option<Message>
    requires { width Form.Packed * i + width Form.Packed ≤ length network.now }
    ensures { result ≡ stored_here Form.Packed network.now i }
{
    let x = network[Form::PACKED_WORDS * i];
    stored_as(
        x / KIND_UNIT % KIND_PLACES + 1,
        x / VIEW_UNIT,
        x % PROCESSOR_PLACES,
    )
}

// Message i of the network.
pub fn decode(form: Form, network: &[u64], i: usize) -> Option<Message>
    ensures { result ≡ stored form network.now i }
{
    if capacity(form, network) <= i {
        return None;
    }
    match form {
        Form::Wide => decode_wide(network, i),
        Form::Packed => decode_packed(network, i),
    }
}

// Where the sending time of message i stands.
fn time_place(form: Form, i: usize) -> usize
    requires { width form * i + width form < 2 ^ 64 }
    ensures { result ≡ time_place form i }
{
    match form {
        Form::Wide => Form::WIDE_WORDS * i + 3,
        Form::Packed => Form::PACKED_WORDS * i + 1,
    }
}

// When message i was sent; 0 beyond the end.
pub fn sent(form: Form, network: &[u64], i: usize) -> u64
    ensures { result ≡ (held_at form network.now i).sent }
{
    if i < capacity(form, network) {
        network[time_place(form, i)]
    } else {
        0
    }
}
