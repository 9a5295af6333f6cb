//! A chart as SVG.

ghost use Rattle.std.specs.Prelude.{◌<◌};

use crate::drawn::{
    Arrow, Bar, Caption, Lifeline, RowArea, Sheet, SliceBox, StateMark, Title, add_heading,
    add_wanted,
};
use crate::frame::Layout;
use crate::layout::{agent_x, state_x, words_x};
use crate::marks::{ChannelCell, Mark};
use crate::notes::add_note;
use crate::rows::{CommandRow, below_mark, below_marks, lower, names_height, said_in};
use crate::style::style;
use chi_flit::{Agent, Channel, Line, Msg, NoMemory};
use chi_slice::Serving;
use std::alloc::Allocator;
use std::io::Write;

/// Whether the flit of a cell is taken.
fn is_taken(cell: &ChannelCell, mark: &Mark) -> bool {
    match mark {
        Mark::Taken(other) => cell.is(other),
        _ => false,
    }
}

/// The first of the rows that takes the flit of a cell.
fn taken_at<A: Allocator>(cell: &ChannelCell, rows: &[CommandRow<A>]) -> Option<u32> {
    for row in rows {
        if row.marks.iter().any(|mark| is_taken(cell, mark)) {
            return Some(row.y);
        }
    }
    None
}

/// Whether the home comes to do something else at a line.
fn is_served(line: Line, mark: &Mark) -> bool {
    match mark {
        Mark::Serves(other, _) => line.0 == other.0,
        _ => false,
    }
}

/// The first of the rows in which the home comes to do something else at a line.
fn served_until<A: Allocator>(line: Line, rows: &[CommandRow<A>]) -> Option<u32> {
    for row in rows {
        if row.marks.iter().any(|mark| is_served(line, mark)) {
            return Some(row.y);
        }
    }
    None
}

/// A row's middle.
fn middle(y: Option<u32>) -> Option<u64> {
    match y {
        Some(y) => Some(u64::from(y) + 10),
        None => None,
    }
}

/// Where the letters of a heading stand whose band begins there.
fn heading_y(y: u32) -> u64 {
    u64::from(y) + 13
}

/// Whether a message goes to a requester.
fn is_down(channel: Channel) -> bool {
    matches!(channel, Channel::Snp | Channel::RspDown | Channel::DatDown)
}

/// The chart so far: where its parts stand, where its last row ends, and its text.
#[derive(Drop)]
pub(crate) struct Picture<A: Allocator> {
    pub(crate) layout: Layout,
    pub(crate) bottom: u32,
    pub(crate) text: Vec<u8, A>,
}

impl<A: Allocator> Picture<A> {
    /// A flit that is sent in the band that begins at y, with the rows below its own.
    fn add_sent(
        &mut self,
        later: &[CommandRow<A>],
        y: u32,
        cell: &ChannelCell,
        message: Msg,
    ) -> Result<(), NoMemory> {
        let (agent, home) = (agent_x(cell.agent), self.layout.home_x());
        let (from, to) = if is_down(cell.channel) {
            (home, agent)
        } else {
            (agent, home)
        };
        let arrow = Arrow {
            channel: cell.channel,
            from,
            y: u64::from(y) + 32,
            lane: self.layout.lane_x(cell),
            end: middle(taken_at(cell, later)),
            to,
            bottom: u64::from(self.bottom),
            words_x: words_x(cell.agent),
            words_y: u64::from(y) + 27,
            message,
        };
        write!(self.text, "{arrow}").map_err(|_| NoMemory)
    }

    /// What the home does at a line, with the rows below this one.
    fn add_serving(
        &mut self,
        later: &[CommandRow<A>],
        y: u32,
        line: Line,
        serving: Serving,
    ) -> Result<(), NoMemory> {
        if let Serving::Idle = serving {
            return Ok(());
        }
        let end = middle(served_until(line, later));
        let bar = Bar {
            serving,
            x: self.layout.strip_x(line) + 5,
            y: u64::from(y) + 10,
            end: end.unwrap_or(u64::from(self.bottom)),
            words_x: self.layout.serving_x(),
            words_y: u64::from(y) + 14,
        };
        write!(self.text, "{bar}").map_err(|_| NoMemory)
    }

    /// A mark of a row that begins at top; y is the band of a flit that is sent.
    fn add_mark(
        &mut self,
        top: u32,
        later: &[CommandRow<A>],
        y: u32,
        mark: &Mark,
    ) -> Result<(), NoMemory> {
        match mark {
            Mark::Turned(agent, state) => {
                let mark = StateMark {
                    x: state_x(*agent),
                    y: u64::from(top) + 14,
                    state: *state,
                };
                write!(self.text, "{mark}").map_err(|_| NoMemory)
            }
            Mark::Taken(_) => Ok(()),
            Mark::Sent(cell, message) => self.add_sent(later, y, cell, *message),
            Mark::Serves(line, serving) => self.add_serving(later, top, *line, *serving),
        }
    }

    /// The marks of a row.
    fn add_marks(
        &mut self,
        top: u32,
        later: &[CommandRow<A>],
        marks: &[Mark],
    ) -> Result<(), NoMemory> {
        let mut y = top;
        for mark in marks {
            self.add_mark(top, later, y, mark)?;
            y = below_mark(y, mark)?;
        }
        Ok(())
    }

    /// Headings, one below the other.
    fn add_headings(&mut self, top: u32, headings: &[Vec<u8, A>]) -> Result<(), NoMemory> {
        let mut y = top;
        for heading in headings {
            add_heading(&mut self.text, heading_y(y), heading)?;
            y = lower(y, 18)?;
        }
        Ok(())
    }

    /// A name on a lifeline.
    fn add_title(&mut self, agent: Option<Agent>, x: u64, y: u64) -> Result<(), NoMemory> {
        let title = Title { agent, x, y };
        write!(self.text, "{title}").map_err(|_| NoMemory)
    }

    /// The names of the agents.
    fn add_agent_names(&mut self, y: u64) -> Result<(), NoMemory> {
        for agent in 0..self.layout.agents {
            self.add_title(Some(Agent(agent)), agent_x(Agent(agent)), y)?;
        }
        Ok(())
    }

    /// The names of the home and of the agents, where they are repeated.
    fn add_names_if(&mut self, names: bool, top: u32) -> Result<(), NoMemory> {
        if !names {
            return Ok(());
        }
        let (home, y) = (self.layout.home_x(), u64::from(top) + 17);
        self.add_title(None, home, y)?;
        self.add_agent_names(y)
    }

    /// The area of a row whose answer is another than the wanted one, and both answers in the band that begins there.
    fn add_difference(&mut self, row: &CommandRow<A>, band: u32) -> Result<(), NoMemory> {
        let Some(wanted) = &row.wanted else {
            return Ok(());
        };
        let area = RowArea {
            y: u64::from(row.y),
            right: self.layout.width(),
            end: u64::from(band) + 16,
        };
        write!(self.text, "{area}").map_err(|_| NoMemory)?;
        let y = u64::from(band) + 10;
        add_wanted(&mut self.text, y, wanted, said_in(row.answer.as_bytes()))
    }

    /// The head of a row: the names where they are repeated, its headings and its command.
    fn add_row_head(&mut self, row: &CommandRow<A>) -> Result<(), NoMemory> {
        self.add_names_if(row.names, row.start)?;
        let headings = lower(row.start, names_height(row.names))?;
        self.add_headings(headings, &row.headings)?;
        let caption = Caption {
            rule: u64::from(row.start),
            right: self.layout.home_x(),
            y: u64::from(row.y) + 14,
            command: row.command,
            number: row.number,
        };
        write!(self.text, "{caption}").map_err(|_| NoMemory)
    }

    /// What is told of a row's answer, its marks, with the rows below it, and the answer that was wanted.
    fn add_row_told(
        &mut self,
        row: &CommandRow<A>,
        later: &[CommandRow<A>],
    ) -> Result<(), NoMemory> {
        let words_y = u64::from(row.y) + 14;
        add_note(
            &mut self.text,
            &self.layout,
            words_y,
            &row.command,
            &row.reply,
            row.answer.as_bytes(),
        )?;
        self.add_marks(row.y, later, &row.marks)?;
        let band = lower(below_marks(row.y, &row.marks)?, 20)?;
        self.add_difference(row, band)
    }

    /// A row, with the rows below it.
    fn add_row(&mut self, row: &CommandRow<A>, later: &[CommandRow<A>]) -> Result<(), NoMemory> {
        self.add_row_head(row)?;
        self.add_row_told(row, later)
    }

    /// All rows.
    fn add_rows(&mut self, rows: &[CommandRow<A>]) -> Result<(), NoMemory> {
        for place in 0..rows.len() {
            self.add_row(&rows[place], &rows[place + 1..])?;
        }
        Ok(())
    }

    /// A slice of the home.
    fn add_slice(&mut self, slice: u8) -> Result<(), NoMemory>
        requires { slice < 255 }
    {
        let area = SliceBox {
            slice,
            x: self.layout.slice_x(slice),
            right: self.layout.slice_x(slice + 1),
            bottom: u64::from(self.bottom),
        };
        write!(self.text, "{area}").map_err(|_| NoMemory)
    }

    /// The slices of the home.
    fn add_slices(&mut self) -> Result<(), NoMemory> {
        for slice in 0..self.layout.slices {
            self.add_slice(slice)?;
        }
        Ok(())
    }

    /// The lifeline of an agent, or of the home.
    fn add_lifeline(&mut self, agent: Option<Agent>, x: u64) -> Result<(), NoMemory> {
        let life = Lifeline {
            agent,
            x,
            bottom: u64::from(self.bottom),
            name_y: u64::from(self.bottom) + 24,
        };
        write!(self.text, "{life}").map_err(|_| NoMemory)
    }

    /// The lifelines of the agents.
    fn add_lifelines(&mut self) -> Result<(), NoMemory> {
        for agent in 0..self.layout.agents {
            self.add_lifeline(Some(Agent(agent)), agent_x(Agent(agent)))?;
        }
        Ok(())
    }

    /// The head of the text: its size, its ground, and its style.
    fn add_head(&mut self) -> Result<(), NoMemory> {
        let sheet = Sheet {
            width: self.layout.width(),
            height: u64::from(self.bottom) + 40,
        };
        write!(self.text, "{sheet}").map_err(|_| NoMemory)?;
        self.text.extend_from_slice(style())?;
        Ok(())
    }

    /// The frame: the home's slices, its lifeline, and those of the agents.
    fn add_frame(&mut self) -> Result<(), NoMemory> {
        let home = self.layout.home_x();
        self.add_slices()?;
        self.add_lifeline(None, home)?;
        self.add_lifelines()
    }
}

/// The SVG of rows, below the headings of the whole chart. Refused where memory runs out.
/// Source: `docs/FORMATS.md`, "Charts".
pub(crate) fn svg_of<A: Allocator>(
    alloc: A,
    layout: Layout,
    title: &[Vec<u8, A>],
    bottom: u32,
    rows: &[CommandRow<A>],
) -> Result<Vec<u8, A>, NoMemory> {
    let mut picture = Picture {
        layout,
        bottom,
        text: Vec::new(alloc),
    };
    picture.add_head()?;
    picture.add_frame()?;
    picture.add_headings(70, title)?;
    picture.add_rows(rows)?;
    picture.text.extend_from_slice(b"</svg>\n")?;
    let Picture { text, .. } = picture;
    Ok(text)
}
