// The page: the written form of document 01 as one constant, a line for each kind of element, with the one reader and writer of a line.
#![tactic(auto)]

ghost use Rattle.std.specs.Prelude.{◌≡◌, ◌≤◌, length};
ghost use Rattle.token.specs.Texts.{pick};
ghost use Rattle.token.specs.Put.{Put};
ghost use Rattle.shape.specs.Shape.{shape_c, row_at, row_ans, said_of};
ghost use Rattle.page.specs.Page.{shape, second};
ghost use Rattle.page.specs.Lines.{lines, is_other};
ghost use Rattle.page.specs.Kind.{spelled_at, second_as, kind_row_at, kinded_ans};

use shape::Row;
use spelling::Part;
use text::Text;
use token::{Cursor, Misread};

// Line k of specs/Page.antt (tools/make-page.py writes them here). Before each run of bytes that stand for themselves stands its length.
#[inline(never)]
#[tactic(auto, unfolding(crate::specs::Page::page, shape::specs::Marks::field_of))]
fn line(k: usize) -> &'static [u8]
    ensures { result.now ≡ pick lines k }
{
    match k {
        1 =>
            b"\x2a<SyncML Version=\"2.0\"><SyncHdr SessionID=\"$\x09\" MsgID=\":\x7c\"><TargetServerURI>./plant</TargetServerURI><SourceClientURI>./press</SourceClientURI></SyncHdr><SyncBody><SyncAlert CmdID=\"'\x10\"><Anchor Last=\"[\x08\" Next=\"]\xae\"/><TargetServerURI>./cards</TargetServerURI><SourceClientURI>./cards</SourceClientURI><SyncType Direction=\"twoWay\" Behaviour=\"Preserve\" IDValidity=\"true\" ChangeLogValidity=\"?\x17\"/></SyncAlert><Final/>",
        2 =>
            b"\x2a<SyncML Version=\"2.0\"><SyncHdr SessionID=\"$\x09\" MsgID=\":\x79\"><TargetClientURI>./press</TargetClientURI><SourceServerURI>./plant</SourceServerURI></SyncHdr><SyncBody><Status CmdID=\"'\x0a\" MsgRef=\"-\x0a\" CmdRef=\"_\x16\" Cmd=\"SyncHdr\" Code=\"|\x12\"/><Status CmdID=\",\x0a\" MsgRef=\"(\x0a\" CmdRef=\")\x18\" Cmd=\"SyncAlert\" Code=\"|\x15\"/><SyncAlert CmdID=\"{\x10\"><Anchor Last=\"[\x08\" Next=\"]\xae\"/><TargetClientURI>./cards</TargetClientURI><SourceServerURI>./cards</SourceServerURI><SyncType Direction=\"twoWay\" Behaviour=\"Preserve\" IDValidity=\"true\" ChangeLogValidity=\"?\x17\"/></SyncAlert><Final/>",
        3 =>
            b"\x2a<SyncML Version=\"2.0\"><SyncHdr SessionID=\"$\x09\" MsgID=\":\x79\"><TargetServerURI>./plant</TargetServerURI><SourceClientURI>./press</SourceClientURI></SyncHdr><SyncBody><Status CmdID=\"'\x0a\" MsgRef=\"-\x0a\" CmdRef=\"_\x16\" Cmd=\"SyncHdr\" Code=\"|\x12\"/><Status CmdID=\",\x0a\" MsgRef=\"(\x0a\" CmdRef=\")\x18\" Cmd=\"SyncAlert\" Code=\"|\x03\"/>",
        4 =>
            b"\x2a<SyncML Version=\"2.0\"><SyncHdr SessionID=\"$\x09\" MsgID=\":\x79\"><TargetClientURI>./press</TargetClientURI><SourceServerURI>./plant</SourceServerURI></SyncHdr><SyncBody><Status CmdID=\"'\x0a\" MsgRef=\"-\x0a\" CmdRef=\"_\x16\" Cmd=\"SyncHdr\" Code=\"|\x12\"/><Status CmdID=\",\x0a\" MsgRef=\"(\x0a\" CmdRef=\")\x13\" Cmd=\"Sync\" Code=\"|\x03\"/>",
        5 =>
            b"\x2a<SyncML Version=\"2.0\"><SyncHdr SessionID=\"$\x09\" MsgID=\":\x79\"><TargetServerURI>./plant</TargetServerURI><SourceClientURI>./press</SourceClientURI></SyncHdr><SyncBody><Status CmdID=\"'\x0a\" MsgRef=\"-\x0a\" CmdRef=\"_\x16\" Cmd=\"SyncHdr\" Code=\"|\x12\"/><Status CmdID=\",\x0a\" MsgRef=\"(\x0a\" CmdRef=\")\x13\" Cmd=\"Sync\" Code=\"|\x03\"/>",
        6 =>
            b"\x2a<SyncML Version=\"2.0\"><SyncHdr SessionID=\"$\x09\" MsgID=\":\x79\"><TargetClientURI>./press</TargetClientURI><SourceServerURI>./plant</SourceServerURI></SyncHdr><SyncBody><Status CmdID=\"'\x0a\" MsgRef=\"-\x0a\" CmdRef=\"_\x16\" Cmd=\"SyncHdr\" Code=\"|\x0b\"/><Final/>",
        7 =>
            b"\x0f<Status CmdID=\"#\x0a\" MsgRef=\"'\x0a\" CmdRef=\"'\x12\" Cmd=\"Add\" Code=\"|\x19\"><StatusItem><ServerURI>@\x1b</ServerURI><ClientURI FP=\"+\x02\">^\x22</ClientURI></StatusItem></Status>",
        8 =>
            b"\x0f<Status CmdID=\"#\x0a\" MsgRef=\"'\x0a\" CmdRef=\"'\x16\" Cmd=\"Replace\" Code=\"|\x1d\"><StatusItem><ClientURI FP=\"+\x02\">^\x22</ClientURI></StatusItem></Status>",
        9 =>
            b"\x0f<Status CmdID=\"#\x0a\" MsgRef=\"(\x0a\" CmdRef=\")\x07\" Cmd=\"*\x08\" Code=\"%\x03\"/>",
        10 =>
            b"\x0f<Status CmdID=\"#\x0a\" MsgRef=\"(\x0a\" CmdRef=\")\x07\" Cmd=\"*\x08\" Code=\"%\x1d\"><StatusItem><ClientURI FP=\"+\x02\">^\x22</ClientURI></StatusItem></Status>",
        11 =>
            b"\x0f<Status CmdID=\"#\x0a\" MsgRef=\"(\x0a\" CmdRef=\")\x07\" Cmd=\"*\x08\" Code=\"%\x19\"><StatusItem><ServerURI>@\x1b</ServerURI><ClientURI FP=\"+\x02\">^\x22</ClientURI></StatusItem></Status>",
        12 =>
            b"\x0f<Delete CmdID=\"#\x19\"><Item><SourceClientURI>^\x22</SourceClientURI></Item></Delete>",
        13 =>
            b"\x10<Replace CmdID=\"#\x1d\"><Item><SourceClientURI FP=\"+\x02\">^\x31</SourceClientURI><Meta Type=\"text/plain;station=&\x03\"/>~\x11</Item></Replace>",
        14 =>
            b"\x0c<Add CmdID=\"#\x1d\"><Item><SourceClientURI FP=\"+\x02\">^\x31</SourceClientURI><Meta Type=\"text/plain;station=&\x03\"/>~\x0d</Item></Add>",
        15 =>
            b"\x0f<Delete CmdID=\"#\x19\"><Item><TargetClientURI>^\x22</TargetClientURI></Item></Delete>",
        16 =>
            b"\x10<Replace CmdID=\"#\x19\"><Item><TargetClientURI>^\x31</TargetClientURI><Meta Type=\"text/plain;station=&\x03\"/>~\x11</Item></Replace>",
        17 =>
            b"\x0c<Add CmdID=\"#\x19\"><Item><SourceServerURI>@\x31</SourceServerURI><Meta Type=\"text/plain;station=&\x03\"/>~\x0d</Item></Add>",
        18 =>
            b"\x0d<Sync CmdID=\"#\x13\" NumberOfChanges=\"!\x56\"><TargetServerURI>./cards</TargetServerURI><SourceClientURI>./cards</SourceClientURI>",
        19 =>
            b"\x0d<Sync CmdID=\"#\x13\" NumberOfChanges=\"!\x56\"><TargetClientURI>./cards</TargetClientURI><SourceServerURI>./cards</SourceServerURI>",
        20 => b"\x23</Sync><Final/></SyncBody></SyncML>",
        21 => b"\x13<Final/></SyncBody>",
        22 => b"\x0b</SyncBody>",
        23 => b"\x09</SyncML>",
        24 =>
            b"\x10<Replace CmdID=\"#\x1d\"><Item><SourceClientURI FP=\"+\x02\">^\x12</SourceClientURI>~\x11</Item></Replace>",
        25 =>
            b"\x0c<Add CmdID=\"#\x1d\"><Item><SourceClientURI FP=\"+\x02\">^\x12</SourceClientURI>~\x0d</Item></Add>",
        26 =>
            b"\x10<Replace CmdID=\"#\x19\"><Item><TargetClientURI>^\x12</TargetClientURI>~\x11</Item></Replace>",
        27 =>
            b"\x0c<Add CmdID=\"#\x19\"><Item><SourceServerURI>@\x12</SourceServerURI>~\x0d</Item></Add>",
        _ => b"",
    }
}

// Whether the fourth byte tells that no element of a line stands at a place: it tells elements apart, but for statuses among themselves.
#[tactic(auto, unfolding(crate::specs::Lines::is_other))]
fn is_other(s: &[u8], at: usize, line: &[u8]) -> bool
    ensures { result ≡ is_other s.now at line.now }
{
    if line.len() < 5 || s.len() < 4 || s.len() - 4 < at {
        return false;
    }
    s[at + 3] != line[4]
}

// What line k of the page has, at the cursor, where the due CmdID is id.
pub fn read_line(s: &[u8], c: Cursor, k: usize, id: u32) -> Result<(Row<Part>, Cursor), Misread>
    ensures { row_ans result ≡ row_at (shape k) id s.now c.at }
{
    let line = line(k);
    if is_other(s, c.at, line) {
        return Err(Misread { place: c.at });
    }
    shape::read(s, c, line, id)
}

// The second line of a kind, in which it is read and not written, where it has one.
#[tactic(auto, unfolding(crate::specs::Page::second))]
fn second_line(k: usize) -> Option<usize>
    ensures { second_as k result ≡ second k }
{
    match k {
        13 => Some(24),
        14 => Some(25),
        16 => Some(26),
        17 => Some(27),
        _ => None,
    }
}

// An element of kind k at the cursor, in either of its lines.
pub fn read_kind(s: &[u8], c: Cursor, k: usize, id: u32) -> Result<(Row<Part>, Cursor), Misread>
    ensures { row_ans result ≡ spelled_at k id s.now c.at }
{
    match read_line(s, c, k, id) {
        Ok(found) => Ok(found),
        Err(e) => match second_line(k) {
            Some(other) => read_line(s, c, other, id),
            None => Err(e),
        },
    }
}

// Some kinds, one after the other on the page.
#[derive(Clone, Copy)]
pub struct Kinds {
    pub from: u8,
    pub count: u8,
}

// One of some kinds, with its row. A kind is the number of its line, as in specs/Kind.antt.
#[derive(Clone, Copy)]
pub struct Kinded {
    pub kind: u32,
    pub row: Row<Part>,
}

// The first of some kinds that reads at the cursor.
pub fn first_kind(s: &[u8], c: Cursor, kinds: Kinds, id: u32) -> Result<(Kinded, Cursor), Misread>
    ensures { kinded_ans result ≡ kind_row_at kinds.count kinds.from id s.now c.at }
{
    let first = kinds.from as usize;
    for k in first..first + kinds.count as usize {
        if let Ok((row, after)) = read_kind(s, c, k, id) {
            return Ok((
                Kinded {
                    kind: k as u32,
                    row,
                },
                after,
            ));
        }
    }
    Err(Misread { place: c.at })
}

// The element of kind k that says this.
pub fn write_kind(out: &mut [u8], at: usize, k: usize, id: u32, row: &Row<Text>) -> usize
    ensures { Put out.old out.new at result ((shape_c (shape k) id).write (said_of row.now)) }
{
    shape::write(out, at, line(k), id, row)
}

// How long it is.
pub fn kind_len(k: usize, id: u32, row: &Row<Text>) -> usize
    ensures { (result ≡ length ((shape_c (shape k) id).write (said_of row.now))) × (result ≤ 1000000) }
{
    shape::measure(line(k), id, row)
}
