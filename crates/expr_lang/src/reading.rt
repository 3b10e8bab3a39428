//! Reading a text from left to right.

ghost use Rattle.std.specs.Prelude.{◌≡◌, ◌≤◌, ◌<◌, ◌^◌, length, drop, OnOk, IfOk, IfErr, true};
ghost use Rattle.dh_base.specs.Memory.{Answers, IsCause};
ghost use Rattle.expr_lang.specs.Causes.{stop_of};
ghost use Rattle.expr_lang.specs.Reading.{level_of, node_level, enclosing_of, compares, binding_of, frames_reduced, nodes_reduced, after_leaf_of};
ghost use Rattle.expr_lang.specs.Reading.{with_leaf, with_sign, with_operator, after_open_of, with_open, with_call};
ghost use Rattle.expr_lang.specs.Reading.{counted_of, joined, node_of_call, with_comma, with_close, with_quote, with_word, with_exponent};
ghost use Rattle.expr_lang.specs.Reading.{with_token, is_blank_of, blank_count, may_end_in, new_reader, ended, read_text, most_words as words_limit};
ghost use Rattle.expr_lang.specs.Stack.{top_of};

use crate::expected::token_at;
use crate::fault::ReadFault;
use crate::stack::Stack;
use crate::tree::{Binary, Place, Unary};
use crate::words::{Call, ItemForm, Symbol};
use dh_base::items::Items;
use dh_base::memory::Memory;
use std::alloc::Global;

/// A node of a tree, with the place of its first byte, or that of its operator.
#[derive(Clone, Copy)]
pub struct Spot {
    pub at: usize,
    pub node: Node,
}

#[derive(Clone, Copy)]
pub enum Node {
    /// A number of millionths.
    Number(u64),
    /// An item, which stands at the node's place.
    Item(ItemForm),
    Unary(Unary),
    Binary(Binary),
    If,
}

/// What has been opened or begun, and waits for more.
#[derive(Clone, Copy)]
pub enum Frame {
    /// A sign or an operator, which waits for its last operand.
    Pending(Spot),
    Bracket,
    Quote,
    /// A call with so many whole arguments.
    Call(CallFrame),
}

#[derive(Clone, Copy)]
pub struct CallFrame {
    pub at: usize,
    pub call: Call,
    pub count: usize,
}

/// What may come next.
#[derive(Clone, Copy)]
pub enum Expect {
    /// The first operand of the whole text.
    Start,
    Operand,
    /// An item, as in `isNull`.
    Item,
    /// An item or a number, as in `firstNonNull`.
    Plain,
    /// The bracket after a call's name.
    Bracket,
    /// A quoted text.
    Quote,
    /// The exponent after the `^` at this place.
    Exponent(usize),
    /// What may follow an operand, a `^` among it or not.
    Operator(bool),
    /// The comma after a quoted text.
    Comma,
    /// The bracket after an item, as in `isNull`.
    Close,
    /// A comma or a bracket, as in `firstNonNull`.
    More,
    /// Nothing.
    End,
}

/// What was read so far.
#[derive(Drop)]
pub struct Reader {
    pub expect: Expect,
    pub frames: Stack<Frame>,
    /// The nodes that are whole, each after its operands.
    pub nodes: Items<Spot>,
    /// How many brackets are open.
    pub opened: usize,
    /// The first bracket that stands inside 64 others.
    pub crowded: Option<usize>,
    /// Whether a quote is open.
    pub quoted: bool,
}

#[derive(Clone, Copy)]
pub enum Token {
    Word(Symbol),
    Number(u64),
    Exponent(u8),
}

#[derive(Clone, Copy)]
pub struct Found {
    pub token: Token,
    pub len: usize,
}

pub fn level(operator: Binary) -> u8
    ensures { result ≡ level_of operator }
{
    match operator {
        Binary::Or => 1,
        Binary::And => 2,
        Binary::Equal
        | Binary::NotEqual
        | Binary::Less
        | Binary::AtMost
        | Binary::Greater
        | Binary::AtLeast => 3,
        Binary::Add | Binary::Subtract => 4,
        Binary::Multiply | Binary::Divide | Binary::Remainder => 5,
        Binary::DaysBetween | Binary::Comma => 0,
    }
}

fn pending_level(spot: Spot) -> u8
    ensures { result ≡ node_level spot.node }
{
    match spot.node {
        Node::Binary(operator) => level(operator),
        _ => 6,
    }
}

/// What encloses the operand at the end, and whether a comparison is pending inside of it.
pub fn enclosing(frames: &Stack<Frame>) -> (Option<Frame>, bool)
    ensures frame { result.0 ≡ enclosing_of frames.now }
    ensures comparison { result.1 ≡ compares frames.now }
{
    let mut comparison = false;
    for above in 0..frames.len() {
        match frames.get(above) {
            Some(Frame::Pending(spot)) => comparison = comparison || pending_level(spot) == 3,
            other => return (other, comparison),
        }
    }
    (None, comparison)
}

/// A pending sign or operator at the end that binds at least so tightly.
fn binding(frames: &Stack<Frame>, least: u8) -> Option<Spot>
    ensures { result ≡ binding_of least frames.now }
{
    match frames.get(0) {
        Some(Frame::Pending(spot)) if least <= pending_level(spot) => Some(spot),
        _ => None,
    }
}

/// Moves pending signs and operators that bind at least so tightly to the nodes.
#[inline(always)]
fn reduce(frames: &mut Stack<Frame>, nodes: &mut Items<Spot>, least: u8) -> Result<(), Memory>
    ensures frames { OnOk result (frames.new ≡ frames_reduced least frames.old) }
    ensures nodes { OnOk result (nodes.new ≡ nodes_reduced least frames.old nodes.old) }
{
    while let Some(spot) = binding(frames, least) {
        nodes.push(spot)?;
        let _ = frames.pop();
    }
    Ok(())
}

impl Reader {
    /// A reader of a text of so many bytes, with room for what most texts of this length need.
    fn with_room(alloc: Global, len: usize) -> Result<Reader, Memory>
        ensures { IfOk result (λ reader. reader ≡ new_reader) }
    {
        let frames = Stack::with_room(alloc, len / 16 + 8)?;
        let nodes = Items::from(Vec::with_capacity(alloc, len / 8 + 16)?);
        Ok(Reader {
            expect: Expect::Start,
            frames,
            nodes,
            opened: 0,
            crowded: None,
            quoted: false,
        })
    }
}

/// What may come after an operand that stands where this is expected.
fn after_leaf(expect: Expect, leaf: Node) -> Expect
    ensures { result ≡ after_leaf_of expect leaf }
{
    match (expect, leaf) {
        (Expect::Item, _) => Expect::Close,
        (Expect::Plain, _) => Expect::More,
        (_, Node::Item(ItemForm::EventCount | ItemForm::EnrollmentCount | ItemForm::EntityCount)) =>
            { Expect::End }
        _ => Expect::Operator(true),
    }
}

#[tactic(auto, unfolding(crate::specs::Reading::with_leaf))]
fn put_leaf(reader: &mut Reader, at: usize, leaf: Node) -> Result<(), Memory>
    ensures { OnOk result (reader.new ≡ with_leaf reader.old at leaf) }
{
    reader.nodes.push(Spot { at, node: leaf })?;
    reader.expect = after_leaf(reader.expect, leaf);
    Ok(())
}

#[tactic(auto, unfolding(crate::specs::Reading::with_sign))]
fn put_sign(reader: &mut Reader, at: usize, sign: Unary) -> Result<(), Memory>
    ensures { OnOk result (reader.new ≡ with_sign reader.old at sign) }
{
    reader.frames.push(Frame::Pending(Spot {
        at,
        node: Node::Unary(sign),
    }))?;
    reader.expect = Expect::Operand;
    Ok(())
}

#[tactic(auto, unfolding(crate::specs::Reading::with_operator))]
fn put_operator(reader: &mut Reader, at: usize, operator: Binary) -> Result<(), Memory>
    ensures { OnOk result (reader.new ≡ with_operator reader.old at operator) }
{
    reduce(&mut reader.frames, &mut reader.nodes, level(operator))?;
    reader.frames.push(Frame::Pending(Spot {
        at,
        node: Node::Binary(operator),
    }))?;
    reader.expect = Expect::Operand;
    Ok(())
}

/// What has to come after the bracket of a call: its first argument.
fn after_open(frames: &Stack<Frame>) -> Expect
    ensures { result ≡ after_open_of (top_of frames.now) }
{
    let Some(Frame::Call(frame)) = frames.get(0) else {
        return Expect::Operand;
    };
    match frame.call {
        Call::Condition => Expect::Quote,
        Call::IsNull | Call::IsNotNull | Call::HasValue => Expect::Item,
        Call::FirstNonNull => Expect::Plain,
        _ => Expect::Operand,
    }
}

#[tactic(auto, unfolding(crate::specs::Reading::with_open))]
fn put_open(reader: &mut Reader, at: usize) -> Result<(), Memory>
    requires { reader.old.opened < 2 ^ 63 }
    ensures { OnOk result (reader.new ≡ with_open reader.old at) }
{
    if reader.crowded.is_none() && reader.opened >= 64 {
        reader.crowded = Some(at);
    }
    reader.opened += 1;
    if matches!(reader.expect, Expect::Bracket) {
        reader.expect = after_open(&reader.frames);
    } else {
        reader.frames.push(Frame::Bracket)?;
        reader.expect = Expect::Operand;
    }
    Ok(())
}

#[tactic(auto, unfolding(crate::specs::Reading::with_call))]
fn put_call(reader: &mut Reader, at: usize, call: Call) -> Result<(), Memory>
    ensures { OnOk result (reader.new ≡ with_call reader.old at call) }
{
    reader
        .frames
        .push(Frame::Call(CallFrame { at, call, count: 0 }))?;
    reader.expect = Expect::Bracket;
    Ok(())
}

/// Takes one more argument into a call that is a list.
fn join(nodes: &mut Items<Spot>, frame: CallFrame) -> Result<(), Memory>
    ensures { OnOk result (nodes.new ≡ joined frame nodes.old) }
{
    let is_list = matches!(
        frame.call,
        Call::FirstNonNull | Call::Greatest | Call::Least
    );
    if frame.count > 0 && is_list {
        nodes.push(Spot {
            at: frame.at,
            node: Node::Binary(Binary::Comma),
        })?;
    }
    Ok(())
}

fn call_node(call: Call) -> Node
    ensures { result ≡ node_of_call call }
{
    match call {
        Call::If | Call::Condition => Node::If,
        Call::IsNull => Node::Unary(Unary::IsNull),
        Call::IsNotNull => Node::Unary(Unary::IsNotNull),
        Call::FirstNonNull => Node::Unary(Unary::FirstNonNull),
        Call::Greatest => Node::Unary(Unary::Greatest),
        Call::Least => Node::Unary(Unary::Least),
        Call::DaysBetween => Node::Binary(Binary::DaysBetween),
        Call::HasValue => Node::Unary(Unary::HasValue),
        Call::Zing => Node::Unary(Unary::Zing),
        Call::Oizp => Node::Unary(Unary::Oizp),
    }
}

/// The call with one more argument.
fn counted(frame: CallFrame) -> CallFrame
    ensures { result ≡ counted_of frame }
{
    let count = if frame.count < 4096 {
        frame.count + 1
    } else {
        4096
    };
    CallFrame { count, ..frame }
}

#[tactic(auto, unfolding(crate::specs::Reading::with_comma))]
fn put_comma(reader: &mut Reader) -> Result<(), Memory>
    ensures { OnOk result (reader.new ≡ with_comma reader.old) }
{
    reduce(&mut reader.frames, &mut reader.nodes, 1)?;
    if let Some(Frame::Call(frame)) = reader.frames.pop() {
        join(&mut reader.nodes, frame)?;
        reader.frames.push(Frame::Call(counted(frame)))?;
        reader.expect = if matches!(frame.call, Call::FirstNonNull) {
            Expect::Plain
        } else {
            Expect::Operand
        };
    }
    Ok(())
}

#[tactic(auto, unfolding(crate::specs::Reading::with_close))]
fn put_close(reader: &mut Reader) -> Result<(), Memory>
    ensures { OnOk result (reader.new ≡ with_close reader.old) }
{
    reduce(&mut reader.frames, &mut reader.nodes, 1)?;
    if let Some(Frame::Call(frame)) = reader.frames.pop() {
        join(&mut reader.nodes, frame)?;
        reader.nodes.push(Spot {
            at: frame.at,
            node: call_node(frame.call),
        })?;
    }
    reader.opened = reader.opened.saturating_sub(1);
    reader.expect = Expect::Operator(true);
    Ok(())
}

#[tactic(auto, unfolding(crate::specs::Reading::with_quote))]
fn put_quote(reader: &mut Reader) -> Result<(), Memory>
    ensures { OnOk result (reader.new ≡ with_quote reader.old) }
{
    if matches!(reader.expect, Expect::Quote) {
        reader.frames.push(Frame::Quote)?;
        reader.quoted = true;
        reader.expect = Expect::Operand;
    } else {
        reduce(&mut reader.frames, &mut reader.nodes, 1)?;
        let _ = reader.frames.pop();
        reader.quoted = false;
        reader.expect = Expect::Comma;
    }
    Ok(())
}

#[tactic(auto, unfolding(crate::specs::Reading::with_word))]
fn put_word(reader: &mut Reader, at: usize, symbol: Symbol) -> Result<(), Memory>
    requires { reader.old.opened < 2 ^ 63 }
    ensures { OnOk result (reader.new ≡ with_word reader.old at symbol) }
{
    match symbol {
        Symbol::Open => put_open(reader, at),
        Symbol::Close => put_close(reader),
        Symbol::Comma => put_comma(reader),
        Symbol::Quote => put_quote(reader),
        Symbol::Caret => {
            reader.expect = Expect::Exponent(at);
            Ok(())
        }
        Symbol::Minus => put_sign(reader, at, Unary::Negate),
        Symbol::Bang => put_sign(reader, at, Unary::Not),
        Symbol::Operator(operator) => put_operator(reader, at, operator),
        Symbol::Call(call) => put_call(reader, at, call),
        Symbol::Item(form) => put_leaf(reader, at, Node::Item(form)),
    }
}

#[tactic(auto, unfolding(crate::specs::Reading::with_exponent))]
fn put_exponent(reader: &mut Reader, exponent: u8) -> Result<(), Memory>
    ensures { OnOk result (reader.new ≡ with_exponent reader.old exponent) }
{
    if let Expect::Exponent(at) = reader.expect {
        reader.nodes.push(Spot {
            at,
            node: Node::Unary(Unary::Power(exponent)),
        })?;
    }
    reader.expect = Expect::Operator(false);
    Ok(())
}

#[tactic(auto, unfolding(crate::specs::Reading::with_token))]
fn put_token(reader: &mut Reader, at: usize, token: Token) -> Result<(), Memory>
    requires { reader.old.opened < 2 ^ 63 }
    ensures { OnOk result (reader.new ≡ with_token reader.old at token) }
{
    match token {
        Token::Word(symbol) => put_word(reader, at, symbol),
        Token::Number(number) => put_leaf(reader, at, Node::Number(number)),
        Token::Exponent(exponent) => put_exponent(reader, exponent),
    }
}

fn is_blank(byte: u8) -> bool
    ensures { result ≡ is_blank_of byte }
{
    byte == b' ' || byte == b'\t' || byte == b'\r' || byte == b'\n'
}

/// How many blanks stand at the front. Most words have none before them, which the first byte tells.
fn blanks(bytes: &[u8]) -> usize
    ensures count { result ≡ blank_count bytes.now }
    ensures within { result ≤ length bytes.now }
{
    if bytes.is_empty() || !is_blank(bytes[0]) {
        return 0;
    }
    blank_run(bytes)
}

fn blank_run(bytes: &[u8]) -> usize
    ensures count { result ≡ blank_count bytes.now }
    ensures within { result ≤ length bytes.now }
{
    let mut count = 0;
    while count < bytes.len() && is_blank(bytes[count]) {
        count += 1;
    }
    count
}

/// Whether a text may end here.
fn may_end(expect: Expect, frames: &Stack<Frame>) -> bool
    ensures { result ≡ may_end_in expect frames.now }
{
    match expect {
        Expect::Operator(_) => enclosing(frames).0.is_none(),
        Expect::End => true,
        _ => false,
    }
}

/// The nodes of a text, each after its operands, and the first bracket inside 64 others.
#[derive(Drop)]
pub struct Nodes {
    pub nodes: Items<Spot>,
    pub crowded: Option<usize>,
}

/// Moves what is pending at the end of a text to the nodes.
fn settle(reader: &mut Reader, at: usize) -> Result<(), ReadFault>
    ensures whole { OnOk result (may_end_in reader.old.expect reader.old.frames ≡ true) }
    ensures cut { IfErr result (λ fault. IsCause (ended reader.old at) (stop_of fault)) }
    ensures nodes { OnOk result (reader.new.nodes ≡ nodes_reduced 1 reader.old.frames reader.old.nodes) }
    ensures crowded { reader.new.crowded ≡ reader.old.crowded }
{
    if !may_end(reader.expect, &reader.frames) {
        return Err(ReadFault::Syntax(at));
    }
    reduce(&mut reader.frames, &mut reader.nodes, 1)?;
    Ok(())
}

#[tactic(auto)]
fn finish(mut reader: Reader, at: usize) -> Result<Nodes, ReadFault>
    ensures { Answers stop_of (ended reader at) result }
{
    match settle(&mut reader, at) {
        Ok(()) => Ok(Nodes {
            nodes: reader.nodes,
            crowded: reader.crowded,
        }),
        Err(fault) => Err(fault),
    }
}

/// The text from a place on.
pub fn rest(text: &[u8], at: usize) -> &[u8]
    ensures { result.now ≡ drop at text.now }
{
    if at <= text.len() {
        &text[at..]
    } else {
        &text[text.len()..]
    }
}

/// The text from a place in it on.
fn tail(text: &[u8], at: usize) -> &[u8]
    requires { at ≤ length text.now }
    ensures { result.now ≡ drop at text.now }
{
    &text[at..]
}

/// How many words a text of 4,096 bytes has at most, and one more.
#[tactic(auto, unfolding(crate::specs::Reading::most_words))]
fn most_words() -> usize
    ensures value { result ≡ words_limit }
    ensures small { result < 2 ^ 63 }
{
    4097
}

/// Reads a whole text.
#[tactic(auto, unfolding(crate::specs::Reading::read_text, crate::specs::Reading::read_rest))]
pub fn read(alloc: Global, text: &[u8], place: Place) -> Result<Nodes, ReadFault>
    ensures { Answers stop_of (read_text place text.now) result }
{
    let mut reader = Reader::with_room(alloc, text.len())?;
    let mut at = 0;
    let mut most = most_words();
    while most > 0 {
        most -= 1;
        at += blanks(tail(text, at));
        if at == text.len() {
            return finish(reader, at);
        }
        let bytes = tail(text, at);
        let found = token_at(reader.expect, &reader.frames, reader.quoted, place, bytes);
        match found {
            Err(len) => return Err(ReadFault::Syntax(at + len)),
            Ok(found) => {
                put_token(&mut reader, at, found.token)?;
                at += found.len;
            }
        }
    }
    Err(ReadFault::Syntax(at))
}
