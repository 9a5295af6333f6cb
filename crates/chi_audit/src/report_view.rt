//! What a pass of the channel knows.

use crate::reports::Report;
use std::collections::LinkedList;

/// Whether it may receive, and open outboxes for the agents from one on; whether it may send the report of that
/// agent; the reports that it received; and those of which it is told that they were sent. No value of it is
/// made.
pub struct ReportView {
    pub opens: bool,
    pub sends: bool,
    pub from: u8,
    pub got: LinkedList<Report>,
    pub told: LinkedList<Report>,
}
