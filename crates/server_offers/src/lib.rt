// The server's commands in Pkg 4: Delete, Replace and Add, each by rising GUID.
#![tactic(auto)]

ghost use Rattle.std.specs.Prelude.{◌≡◌, ◌+◌, ◌≤◌, ◌++◌, map, length};
ghost use Rattle.places.specs.Set.{all_places};
ghost use Rattle.lists.specs.Lists.{kept_listed};
ghost use Rattle.listing.specs.Listing.{listing, items_of, holding};
ghost use Rattle.server_offers.specs.Offer.{is_waiting, is_offered_as, kind_of, offer, offers_of, offers, command, worded_as, dirty_here, offered_now, offered};

use elements::Fields;
use listing::Listing;
use lists::Entry;
use records::{Mark, Pairing, Record, Records};
use statuses::Name;
use terms::{Guid, Luid};
use text::Wording;

// Whether a record with this mark waits for the press to take it.
fn is_waiting(mark: Mark) -> bool
    ensures { result ≡ is_waiting mark }
{
    matches!(mark, Mark::Dirty | Mark::Offered)
}

// Whether the server has this command for a record.
fn is_due(name: Name, x: &Record) -> bool
    ensures { result ≡ is_offered_as name x.now }
{
    let mark = x.pairing.mark;
    match name {
        Name::Delete => !mark.is_live(),
        Name::Replace => is_waiting(mark) && record_moves::is_paired(x),
        Name::Add => is_waiting(mark) && !record_moves::is_paired(x),
    }
}

fn kind_of(name: Name) -> u32
    ensures { result ≡ kind_of name }
{
    match name {
        Name::Delete => Fields::SERVER_DELETE,
        Name::Replace => Fields::SERVER_REPLACE,
        Name::Add => Fields::SERVER_ADD,
    }
}

fn worded(kind: u32, guid: Guid, luid: Luid, wording: Wording) -> Entry
    ensures { result ≡ worded_as kind guid luid wording }
{
    Entry {
        fields: Fields {
            kind,
            msgref: 0,
            cmdref: 0,
            cmd: 0,
            code: 0,
            guid,
            luid,
            fp: 0,
        },
        wording,
    }
}

// A command, and all that the server knows of the record.
fn offer_of(name: Name, x: &Record) -> Entry
    ensures { result ≡ offer name x.now }
{
    worded(kind_of(name), x.guid, x.pairing.luid, x.wording)
}

// The offers of one name, at the end of a list, by rising GUID.
fn push_offers(list: &mut Listing, s: &Records, name: Name)
    requires { length s.now.places ≡ all_places → list.old.n + length (offers_of name s.now) ≤ kept_listed }
    ensures { list.new ≡ holding (items_of list.old ++ offers_of name s.now) list.old }
{
    let row = listing::row_of(s.used, &s.places, |x| is_due(name, x), |x| x.guid.0);
    listing::push_all(list, &row, &s.places, |x| offer_of(name, x));
}

// All offers: Delete, Replace and Add.
pub fn offers_of(s: &Records) -> Listing
    ensures { result ≡ listing (offers s.now) }
{
    let mut list = Listing::none();
    push_offers(&mut list, s, Name::Delete);
    push_offers(&mut list, s, Name::Replace);
    push_offers(&mut list, s, Name::Add);
    list
}

// What the command says of an offer: Delete and Replace name the LUID, Add the GUID.
fn command_of(o: &Entry) -> Entry
    ensures { result ≡ command o.now }
{
    let f = o.fields;
    match Name::of(f.kind) {
        Name::Delete => worded(Fields::SERVER_DELETE, Guid(0), f.luid, Wording::none()),
        Name::Replace => worded(Fields::SERVER_REPLACE, Guid(0), f.luid, o.wording),
        Name::Add => worded(Fields::SERVER_ADD, f.guid, Luid(0), o.wording),
    }
}

// The commands of all offers.
pub fn commands_of(offers: &[Entry]) -> Listing
    requires { length offers.now ≤ kept_listed }
    ensures { result ≡ listing (map command offers.now) }
{
    let mut list = Listing::none();
    for o in offers {
        list.push(command_of(o));
    }
    list
}

// A dirty record as it is once it is offered.
fn now_offered(x: &Record) -> Record
    ensures { result ≡ offered_now x.now }
{
    Record {
        pairing: Pairing {
            mark: Mark::Offered,
            ..x.pairing
        },
        ..*x
    }
}

// All dirty become offered.
pub fn all_offered(s: &mut Records)
    ensures { s.new ≡ offered s.old }
{
    places::act_on_each(
        &mut s.used,
        &mut s.places,
        |x| x.pairing.mark == Mark::Dirty,
        |x| Some(now_offered(x)),
    );
}
