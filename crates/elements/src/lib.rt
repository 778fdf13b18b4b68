// Heads, elements of lists and the ends of lists: the page's rows under their names.
#![tactic(auto)]

ghost use Rattle.std.specs.Prelude.{◌≡◌, ◌≤◌, length};
ghost use Rattle.token.specs.Put.{Put};
ghost use Rattle.token.specs.Misread.{found_as};
ghost use Rattle.shape.specs.Shape.{said_of};
ghost use Rattle.elements.specs.Element.{head_c, placed_at, element_with, write_element, end_c, of_head, of_element, of_end};

use page::Kinds;
use shape::{Row, SLOTS};
use spelling::Part;
use terms::{Guid, Luid};
use text::{Text, Wording};
use token::{Cursor, Misread};

// What stands before a package's lists. Its numbers are those of the message, as specs/Element.antt has them, and any may stand here: pkg and valid are no enums.
#[derive(Clone, Copy)]
pub struct Head {
    pub pkg: usize,
    pub session: u32,
    pub message: u32,
    pub headerref: u32,
    pub msgref: u32,
    pub cmdref: u32,
    pub last: u32,
    pub next: u32,
    pub valid: u32,
}

impl Head {
    // The words of ChangeLogValidity.
    pub const NOT_VALID: u32 = 0;

    pub const VALID: u32 = 1;
}

// The head of a package at the cursor.
pub fn read_head(s: &[u8], c: Cursor) -> Result<(Head, Cursor), Misread>
    ensures { found_as result ≡ head_c.read s.now c.at }
{
    let (found, after) = page::first_kind(s, c, Kinds { from: 1, count: 6 }, 0)?;
    let [
        session,
        message,
        headerref,
        msgref,
        cmdref,
        last,
        next,
        valid,
        ..
    ] = found.row.nums;
    let head = Head {
        pkg: found.kind as usize,
        session,
        message,
        headerref,
        msgref,
        cmdref,
        last,
        next,
        valid,
    };
    Ok((head, after))
}

fn head_row(h: Head) -> Row<Text>
    ensures { said_of result ≡ (of_head h).1 }
{
    let nums = [
        h.session,
        h.message,
        h.headerref,
        h.msgref,
        h.cmdref,
        h.last,
        h.next,
        h.valid,
        0,
        0,
        0,
        0,
        0,
        0,
        0,
    ];
    Row {
        nums,
        text: Text::empty(),
    }
}

pub fn write_head(out: &mut [u8], at: usize, h: Head) -> usize
    ensures { Put out.old out.new at result (head_c.write h) }
{
    page::write_kind(out, at, h.pkg, 0, &head_row(h))
}

pub fn head_len(h: Head) -> usize
    ensures { (result ≡ length (head_c.write h)) × (result ≤ 1000000) }
{
    page::kind_len(h.pkg, 0, &head_row(h))
}

// What an element of a list says besides its text and station. Any number may stand here, as in specs/Element.antt: kind, cmd and code are no enums.
#[derive(Clone, Copy)]
pub struct Fields {
    pub kind: u32,
    pub msgref: u32,
    pub cmdref: u32,
    pub cmd: u32,
    pub code: u32,
    pub guid: Guid,
    pub luid: Luid,
    pub fp: u32,
}

impl Fields {
    // The kinds: each is a line of the page.
    pub const GUID_REPORT: u32 = 7;

    pub const LUID_REPORT: u32 = 8;

    pub const EMPTY_STATUS: u32 = 9;

    pub const LUID_STATUS: u32 = 10;

    pub const GUID_STATUS: u32 = 11;

    pub const PRESS_DELETE: u32 = 12;

    pub const PRESS_REPLACE: u32 = 13;

    pub const PRESS_ADD: u32 = 14;

    pub const SERVER_DELETE: u32 = 15;

    pub const SERVER_REPLACE: u32 = 16;

    pub const SERVER_ADD: u32 = 17;

    // The words of Cmd.
    pub const CMD_ADD: u32 = 2;

    pub const CMD_REPLACE: u32 = 3;

    pub const CMD_DELETE: u32 = 4;
}

// An element of a list, as it stands in a message: where its text is spelled there.
#[derive(Clone, Copy)]
pub struct Placed {
    pub fields: Fields,
    pub text: Part,
    pub station: u8,
}

// One of some kinds of elements at the cursor, whose due CmdID is id.
pub fn read_element(s: &[u8], c: Cursor, kinds: Kinds, id: u32) -> Result<(Placed, Cursor), Misread>
    ensures { found_as result ≡ placed_at kinds id s.now c.at }
{
    let (found, after) = page::first_kind(s, c, kinds, id)?;
    let [
        _,
        _,
        _,
        msgref,
        cmdref,
        _,
        _,
        _,
        cmd,
        code,
        guid,
        luid,
        fp,
        _,
        station,
    ] = found.row.nums;
    let fields = Fields {
        kind: found.kind,
        msgref,
        cmdref,
        cmd,
        code,
        guid: Guid(guid),
        luid: Luid(luid),
        fp,
    };
    let placed = Placed {
        fields,
        text: found.row.text,
        station: station as u8,
    };
    Ok((placed, after))
}

fn element_row(x: Fields, w: Wording) -> Row<Text>
    ensures { said_of result ≡ (of_element (element_with x w)).1 }
{
    let nums = [
        0,
        0,
        0,
        x.msgref,
        x.cmdref,
        0,
        0,
        0,
        x.cmd,
        x.code,
        x.guid.0,
        x.luid.0,
        x.fp,
        0,
        w.station as u32,
    ];
    Row { nums, text: w.text }
}

// The element of these fields that says this.
pub fn write_element(out: &mut [u8], at: usize, id: u32, f: Fields, w: Wording) -> usize
    ensures { Put out.old out.new at result (write_element id (element_with f w)) }
{
    page::write_kind(out, at, f.kind as usize, id, &element_row(f, w))
}

pub fn element_len(id: u32, f: Fields, w: Wording) -> usize
    ensures { (result ≡ length (write_element id (element_with f w))) × (result ≤ 1000000) }
{
    page::kind_len(f.kind as usize, id, &element_row(f, w))
}

// What the end of a list says: the number of changes, where it is the beginning of a Sync.
#[derive(Clone, Copy)]
pub struct End {
    pub changes: u32,
}

// What ends a list: line k of the page, whose due CmdID is id.
pub fn read_end(s: &[u8], c: Cursor, k: usize, id: u32) -> Result<(End, Cursor), Misread>
    ensures { found_as result ≡ (end_c k id).read s.now c.at }
{
    let (row, after) = page::read_line(s, c, k, id)?;
    let [.., changes, _] = row.nums;
    Ok((End { changes }, after))
}

fn end_row(e: End) -> Row<Text>
    ensures { said_of result ≡ of_end e }
{
    let mut nums = [0u32; SLOTS];
    nums[13] = e.changes;
    Row {
        nums,
        text: Text::empty(),
    }
}

pub fn write_end(out: &mut [u8], at: usize, k: usize, id: u32, e: End) -> usize
    ensures { Put out.old out.new at result ((end_c k id).write e) }
{
    page::write_kind(out, at, k, id, &end_row(e))
}

pub fn end_len(k: usize, id: u32, e: End) -> usize
    ensures { (result ≡ length ((end_c k id).write e)) × (result ≤ 1000000) }
{
    page::kind_len(k, id, &end_row(e))
}
