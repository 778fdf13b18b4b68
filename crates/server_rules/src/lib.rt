// The server at each package, on content: Pkg 1, 3 and 5.
#![tactic(auto)]

ghost use Rattle.std.specs.Prelude.{◌≡◌, ◌≤◌, [], length};
ghost use Rattle.lists.specs.Lists.{kept_listed, most_listed};
ghost use Rattle.terms.specs.declared.Refusal.{Refusal};
ghost use Rattle.terms.specs.Refusal.{required};
ghost use Rattle.packages.specs.Package.{packed};
ghost use Rattle.server_rules.specs.Took.{taken, said_of};
ghost use Rattle.server_rules.specs.Pkg1.{lawful1, mode_for, server_takes1};
ghost use Rattle.server_rules.specs.Pkg3.{merges, server_takes3};
ghost use Rattle.server_rules.specs.Pkg5.{fits5, server_takes5};

use elements::Head;
use listing::Listing;
use lists::Entry;
use message::Content;
use records::{Awaits, Server};
use statuses::Side;
use terms::{Mode, Refusal};

// The most commands that Pkg 3 has.
const MOST: u32 = Entry::MOST as u32;

// ChangeLogValidity and Next.
fn check_1(h: Head) -> Result<(), Refusal>
    ensures { result ≡ required (lawful1 h) Refusal.Unlawful }
{
    if h.valid == Head::VALID && h.next == h.session {
        Ok(())
    } else {
        Err(Refusal::Unlawful)
    }
}

// Normal where the press has the server's anchor.
fn mode_for(last: u32, anchor: u32) -> Mode
    ensures { result ≡ mode_for last anchor }
{
    if last == anchor {
        Mode::Normal
    } else {
        Mode::Recovery
    }
}

// A package with no lists.
fn bare(head: Head) -> Content
    ensures { result ≡ packed head [] [] }
{
    packages::package_of(head, &Listing::none(), &Listing::none())
}

// Pkg 1: the server is open from here, and answers with Pkg 2.
#[inline(never)]
#[tactic(auto, using(terms::proofs::RefusalLaws::goes_on_ok, terms::proofs::RefusalLaws::stops_err, terms::proofs::RefusalLaws::refused_for), unfolding(crate::specs::Pkg1::server_takes1))]
pub fn takes_1(server: &mut Server, p: &Content) -> Result<Content, Refusal>
    ensures said { result ≡ said_of (server_takes1 server.old p.now) }
    ensures side { server.new ≡ (server_takes1 server.old p.now).server }
{
    check_1(p.head)?;
    let mode = mode_for(p.head.last, server.link.anchor);
    server.link.session = p.head.session;
    server.link.awaits = Awaits::Three(mode);
    Ok(bare(packages::head_2(p.head.session, server.link.anchor, mode)))
}

// Steps 2 to 5 on the records after the reports, and Pkg 4.
fn merge_all(mode: Mode, server: &mut Server, p: &Content) -> Content
    requires answered { p.now.answered ≤ most_listed }
    requires commanded { p.now.commanded ≤ most_listed }
    ensures { taken server.new result ≡ merges mode server.old p.now server.old.records }
{
    let n = p.answered as u32;
    let told = server_merge::merge(server.rule, mode, &mut server.records, p.commands(), 4 + n);
    let offers = server_offers::offers_of(&server.records);
    let commands = server_offers::commands_of(offers.as_slice());
    server_offers::all_offered(&mut server.records);
    server.link.awaits = Awaits::Five(p.commanded as u32);
    packages::package_of(
        packages::head_4(server.link.session, 3 + n),
        &told,
        &commands,
    )
}

// Pkg 3: reports, deletes, changes and adds; the server answers with Pkg 4.
#[inline(never)]
pub fn takes_3(mode: Mode, server: &mut Server, p: &Content) -> Result<Content, Refusal>
    ensures said { result ≡ said_of (server_takes3 mode server.old p.now) }
    ensures side { server.new ≡ (server_takes3 mode server.old p.now).server }
{
    server_judges::check_3(mode, p)?;
    server_reports::take_reports(&mut server.records, p.answers())?;
    Ok(merge_all(mode, server, p))
}

// The references, and a status for each offer in order.
#[tactic(auto, unfolding(crate::specs::Pkg5::fits5))]
fn check_5(n: u32, offers: &[Entry], p: &Content) -> Result<(), Refusal>
    requires { length offers.now ≤ kept_listed }
    ensures { result ≡ required (fits5 n offers.now p.now) Refusal.Unlawful }
{
    if n <= MOST
        && packages::refs_fit(packages::head_5(p.head.session, 3 + n), p.head)
        && p.answered <= Entry::MOST
        && statuses::all_fit(Side::Server, 4 + n, offers, p.answers())
    {
        Ok(())
    } else {
        Err(Refusal::Unlawful)
    }
}

// Pkg 5 after a Pkg 3 with n commands: the answers to the server's commands; the server closes, and answers with Pkg 6.
#[inline(never)]
pub fn takes_5(n: u32, server: &mut Server, p: &Content) -> Result<Content, Refusal>
    ensures said { result ≡ said_of (server_takes5 n server.old p.now) }
    ensures side { server.new ≡ (server_takes5 n server.old p.now).server }
{
    let offers = server_offers::offers_of(&server.records);
    check_5(n, offers.as_slice(), p)?;
    server_answers::take_answers(&mut server.records, offers.as_slice(), p.answers())?;
    server.link.anchor = server.link.session;
    server.link.awaits = Awaits::Nothing;
    Ok(bare(packages::head_6(server.link.session)))
}
