//! The parts of a chart as SVG, each on lines of its own. Numbers are pixels from the left and from the top.

use chi_flit::{Agent, Channel, Msg, NoMemory, State};
use chi_script::Command;
use chi_slice::Serving;
use std::alloc::Allocator;
use std::fmt;
use std::io::Write;

/// The sheet: how large the chart is, and its paper.
#[derive(Drop)]
pub(crate) struct Sheet {
    pub(crate) width: u64,
    pub(crate) height: u64,
}

/// A slice of the home, and its number.
#[derive(Drop)]
pub(crate) struct SliceBox {
    pub(crate) slice: u8,
    pub(crate) x: u64,
    pub(crate) right: u64,
    pub(crate) bottom: u64,
}

/// The lifeline of an agent, or of the home where there is none, with its name above and below.
#[derive(Drop)]
pub(crate) struct Lifeline {
    pub(crate) agent: Option<Agent>,
    pub(crate) x: u64,
    pub(crate) bottom: u64,
    pub(crate) name_y: u64,
}

/// A rule above a row, and its command with its number.
#[derive(Drop)]
pub(crate) struct Caption {
    pub(crate) rule: u64,
    pub(crate) right: u64,
    pub(crate) y: u64,
    pub(crate) command: Command,
    pub(crate) number: u64,
}

/// The area of a row whose answer is another than the wanted one.
#[derive(Drop)]
pub(crate) struct RowArea {
    pub(crate) y: u64,
    pub(crate) right: u64,
    pub(crate) end: u64,
}

/// The state that a copy turns to.
#[derive(Drop)]
pub(crate) struct StateMark {
    pub(crate) x: u64,
    pub(crate) y: u64,
    pub(crate) state: State,
}

/// What the home does at a line, from here to there, and the words for it.
#[derive(Drop)]
pub(crate) struct Bar {
    pub(crate) serving: Serving,
    pub(crate) x: u64,
    pub(crate) y: u64,
    pub(crate) end: u64,
    pub(crate) words_x: u64,
    pub(crate) words_y: u64,
}

/// A flit and its text: it leaves one lifeline, goes down its lane, and comes to the other where it is taken;
/// or it is still in flight at the bottom.
#[derive(Drop)]
pub(crate) struct Arrow {
    pub(crate) channel: Channel,
    pub(crate) from: u64,
    pub(crate) y: u64,
    pub(crate) lane: u64,
    pub(crate) end: Option<u64>,
    pub(crate) to: u64,
    pub(crate) bottom: u64,
    pub(crate) words_x: u64,
    pub(crate) words_y: u64,
    pub(crate) message: Msg,
}

/// The paper, of the whole size.
#[derive(Drop)]
struct Paper {
    width: u64,
    height: u64,
}

/// The number of a slice.
#[derive(Drop)]
struct SliceTitle {
    slice: u8,
    x: u64,
}

/// A name on a lifeline.
#[derive(Drop)]
pub(crate) struct Title {
    pub(crate) agent: Option<Agent>,
    pub(crate) x: u64,
    pub(crate) y: u64,
}

/// The number of a row's command.
#[derive(Drop)]
struct RowNumber {
    number: u64,
    y: u64,
}

/// The name of an agent, or of the home.
#[derive(Drop)]
struct Name(Option<Agent>);

/// The words for what the home does.
#[derive(Drop)]
struct ServingTitle {
    serving: Serving,
    x: u64,
    y: u64,
}

/// What the home does, in the words of an answer.
#[derive(Drop)]
struct Served(Serving);

/// The end of an arrow.
#[derive(Drop)]
struct ArrowEnd {
    end: Option<u64>,
    to: u64,
    bottom: u64,
}

impl fmt::Display for Sheet {
    fn fmt<W: fmt::Write>(&self, f: &mut fmt::Formatter<W>) -> fmt::Result {
        let (width, height) = (self.width, self.height);
        let paper = Paper { width, height };
        write!(
            f,
            "<svg xmlns='http://www.w3.org/2000/svg' width='{width}' height='{height}' viewBox='0 0 {width} {height}'>\n{paper}"
        )
    }
}

impl fmt::Display for Paper {
    fn fmt<W: fmt::Write>(&self, f: &mut fmt::Formatter<W>) -> fmt::Result {
        let (width, height) = (self.width, self.height);
        write!(
            f,
            "<rect class='paper' width='{width}' height='{height}'/>\n"
        )
    }
}

impl fmt::Display for SliceBox {
    fn fmt<W: fmt::Write>(&self, f: &mut fmt::Formatter<W>) -> fmt::Result {
        let (x, right, bottom) = (self.x, self.right, self.bottom);
        let title = SliceTitle {
            slice: self.slice,
            x,
        };
        write!(
            f,
            "<path class='slice' d='M{x} 64H{right}V{bottom}H{x}z'/>\n{title}"
        )
    }
}

impl fmt::Display for SliceTitle {
    fn fmt<W: fmt::Write>(&self, f: &mut fmt::Formatter<W>) -> fmt::Result {
        let (slice, x) = (self.slice, self.x);
        write!(f, "<text class='small' x='{x}' y='60'>{slice}</text>\n")
    }
}

impl fmt::Display for Lifeline {
    fn fmt<W: fmt::Write>(&self, f: &mut fmt::Formatter<W>) -> fmt::Result {
        let (agent, x, bottom) = (self.agent, self.x, self.bottom);
        let above = Title { agent, x, y: 40 };
        let below = Title {
            agent,
            x,
            y: self.name_y,
        };
        write!(
            f,
            "<path class='life' d='M{x} 64V{bottom}'/>\n{above}{below}"
        )
    }
}

impl fmt::Display for Title {
    fn fmt<W: fmt::Write>(&self, f: &mut fmt::Formatter<W>) -> fmt::Result {
        let (x, y) = (self.x, self.y);
        let name = Name(self.agent);
        write!(f, "<text class='title' x='{x}' y='{y}'>{name}</text>\n")
    }
}

impl fmt::Display for Name {
    fn fmt<W: fmt::Write>(&self, f: &mut fmt::Formatter<W>) -> fmt::Result {
        match self.0 {
            Some(agent) => write!(f, "agent {agent}"),
            None => write!(f, "home"),
        }
    }
}

impl fmt::Display for Caption {
    fn fmt<W: fmt::Write>(&self, f: &mut fmt::Formatter<W>) -> fmt::Result {
        let (rule, right, y) = (self.rule, self.right, self.y);
        let command = self.command;
        let number = RowNumber {
            number: self.number,
            y,
        };
        write!(
            f,
            "<path class='rule' d='M0 {rule}H{right}'/>\n<text class='command' x='50' y='{y}'>{command}</text>\n{number}"
        )
    }
}

impl fmt::Display for RowNumber {
    fn fmt<W: fmt::Write>(&self, f: &mut fmt::Formatter<W>) -> fmt::Result {
        let (number, y) = (self.number, self.y);
        write!(f, "<text class='number' x='44' y='{y}'>{number}</text>\n")
    }
}

impl fmt::Display for RowArea {
    fn fmt<W: fmt::Write>(&self, f: &mut fmt::Formatter<W>) -> fmt::Result {
        let (y, right, end) = (self.y, self.right, self.end);
        write!(f, "<path class='differs' d='M0 {y}H{right}V{end}H0z'/>\n")
    }
}

impl fmt::Display for StateMark {
    fn fmt<W: fmt::Write>(&self, f: &mut fmt::Formatter<W>) -> fmt::Result {
        let (x, y, state) = (self.x, self.y, self.state);
        write!(
            f,
            "<text class='state {state}' x='{x}' y='{y}'>{state}</text>\n"
        )
    }
}

impl fmt::Display for Bar {
    fn fmt<W: fmt::Write>(&self, f: &mut fmt::Formatter<W>) -> fmt::Result {
        let (x, y, end) = (self.x, self.y, self.end);
        let serving = Served(self.serving);
        let title = ServingTitle {
            serving: self.serving,
            x: self.words_x,
            y: self.words_y,
        };
        write!(
            f,
            "<path class='bar {serving}' d='M{x} {y}V{end}'/>\n{title}"
        )
    }
}

impl fmt::Display for ServingTitle {
    fn fmt<W: fmt::Write>(&self, f: &mut fmt::Formatter<W>) -> fmt::Result {
        let (x, y) = (self.x, self.y);
        let serving = Served(self.serving);
        write!(
            f,
            "<text class='serving' x='{x}' y='{y}'>{serving}</text>\n"
        )
    }
}

impl fmt::Display for Served {
    fn fmt<W: fmt::Write>(&self, f: &mut fmt::Formatter<W>) -> fmt::Result {
        match self.0 {
            Serving::Idle => write!(f, "none"),
            Serving::Snooping { agent, .. } => write!(f, "snooping {agent}"),
            Serving::AwaitingCompAck { agent, .. } => write!(f, "compack {agent}"),
            Serving::AwaitingWriteData { agent, .. } => write!(f, "wrdata {agent}"),
        }
    }
}

impl fmt::Display for Arrow {
    fn fmt<W: fmt::Write>(&self, f: &mut fmt::Formatter<W>) -> fmt::Result {
        let (from, y, lane) = (self.from, self.y, self.lane);
        let (words_x, words_y) = (self.words_x, self.words_y);
        let (channel, message) = (self.channel, self.message);
        let end = ArrowEnd {
            end: self.end,
            to: self.to,
            bottom: self.bottom,
        };
        write!(
            f,
            "<path class='flit {channel}' d='M{from} {y}H{lane}V{end}/>\n<text class='flit {channel}' x='{words_x}' y='{words_y}'>{message}</text>\n"
        )
    }
}

impl fmt::Display for ArrowEnd {
    fn fmt<W: fmt::Write>(&self, f: &mut fmt::Formatter<W>) -> fmt::Result {
        let (to, bottom) = (self.to, self.bottom);
        match self.end {
            Some(end) => write!(f, "{end}H{to}' marker-end='url(#head)'"),
            None => write!(f, "{bottom}' marker-end='url(#open)'"),
        }
    }
}

/// Puts bytes behind the text, with those that mean something in SVG written otherwise.
pub(crate) fn add_escaped<A: Allocator>(
    text: &mut Vec<u8, A>,
    bytes: &[u8],
) -> Result<(), NoMemory> {
    for byte in bytes {
        add_byte(text, *byte)?;
    }
    Ok(())
}

/// The same of one byte.
fn add_byte<A: Allocator>(text: &mut Vec<u8, A>, byte: u8) -> Result<(), NoMemory> {
    match byte {
        b'&' => text.extend_from_slice(b"&amp;")?,
        b'<' => text.extend_from_slice(b"&lt;")?,
        b'>' => text.extend_from_slice(b"&gt;")?,
        _ => text.push(byte)?,
    }
    Ok(())
}

/// Puts what a file has in words of its own behind the text: bytes that not every reader shows are `?`.
fn add_legible<A: Allocator>(text: &mut Vec<u8, A>, bytes: &[u8]) -> Result<(), NoMemory> {
    for byte in bytes {
        add_byte(text, legible(*byte))?;
    }
    Ok(())
}

/// The same of one byte.
fn legible(byte: u8) -> u8 {
    match byte {
        32..=126 => byte,
        _ => b'?',
    }
}

/// Puts a heading behind the text.
pub(crate) fn add_heading<A: Allocator>(
    text: &mut Vec<u8, A>,
    y: u64,
    heading: &[u8],
) -> Result<(), NoMemory> {
    write!(text, "<text class='heading' x='10' y='{y}'>").map_err(|_| NoMemory)?;
    add_legible(text, heading)?;
    text.extend_from_slice(b"</text>\n")?;
    Ok(())
}

/// Puts the wanted answer and the one that was given behind the text.
pub(crate) fn add_wanted<A: Allocator>(
    text: &mut Vec<u8, A>,
    y: u64,
    wanted: &[u8],
    answer: &[u8],
) -> Result<(), NoMemory> {
    write!(text, "<text class='wanted' x='50' y='{y}'>wanted ").map_err(|_| NoMemory)?;
    add_legible(text, wanted)?;
    text.extend_from_slice(b", is ")?;
    add_legible(text, answer)?;
    text.extend_from_slice(b"</text>\n")?;
    Ok(())
}
