//! Calls of each job, by holders with each `force` setting. Each letter stands for a task that the
//! host did: lock, look (K), read, put, force, make, name, settle, unlock.

use crate::echo::Echo;
use crate::folder::Folder;
use std::process::Abort;
use tpm_keeping::holder::{End, Fault, Force, Job};
use tpm_keeping::keeper::Keeper;

const FAR: u64 = 1000;

const NO_JOURNAL: End = End::Failed(Fault::Absent);

const DAMAGED: End = End::Failed(Fault::Damaged);

/// Checks that a call with this command ends with this result, after exactly these tasks, and
/// leaves this journal.
fn ends<R: Abort>(
    rt: &R,
    folder: &mut Folder,
    keeper: &mut Keeper<Echo>,
    job: Job,
    command: &[u8],
    end: End,
    did: &[u8],
    journal: &[u8],
) {
    let ended = folder.runs(keeper, job, command);
    assert!(rt; ended == Ok(end));
    assert!(rt; folder.did.as_slice() == did);
    assert!(rt; folder.journal.as_slice() == journal);
}

/// Checks that a call succeeds after exactly these tasks, and leaves this journal.
fn check<R: Abort>(
    rt: &R,
    folder: &mut Folder,
    keeper: &mut Keeper<Echo>,
    job: Job,
    did: &[u8],
    journal: &[u8],
) {
    ends(rt, folder, keeper, job, b"command", End::Done, did, journal);
}

/// Checks that the last call returned this response.
fn answers<R: Abort>(rt: &R, keeper: &Keeper<Echo>, response: &[u8]) {
    assert!(rt; keeper.response() == response);
}

#[test]
fn each_job_is_done(rt: HostRuntime) {
    let mut folder = Folder::new(rt.alloc());
    let mut always = Keeper::new(rt.alloc(), Force::Always, FAR);
    check(&rt, &mut folder, &mut always, Job::Begin, b"LKMNSU", b"h");
    check(&rt, &mut folder, &mut always, Job::Execute, b"LKPFU", b"he");
    answers(&rt, &always, b"command");
    check(&rt, &mut folder, &mut always, Job::Show, b"LKPFU", b"he");
    answers(&rt, &always, b"h");
    check(&rt, &mut folder, &mut always, Job::Renew, b"LKMNSU", b"h");
}

#[test]
fn a_command_without_an_entry_begins_a_new_journal(rt: HostRuntime) {
    let mut folder = Folder::new(rt.alloc());
    let mut power = Keeper::new(rt.alloc(), Force::Power, FAR);
    check(&rt, &mut folder, &mut power, Job::Begin, b"LKMNSU", b"h");
    check(&rt, &mut folder, &mut power, Job::Execute, b"LKPU", b"he");
    ends(
        &rt,
        &mut folder,
        &mut power,
        Job::Execute,
        b"\0",
        End::Done,
        b"LKMNSU",
        b"h",
    );
    answers(&rt, &power, b"\0");
    check(&rt, &mut folder, &mut power, Job::Execute, b"LKPU", b"he");
}

// The device stays in memory: the next call reads nothing.
#[test]
fn what_is_no_command_is_refused(rt: HostRuntime) {
    let mut folder = Folder::new(rt.alloc());
    let mut never = Keeper::new(rt.alloc(), Force::Never, FAR);
    let refused = End::Failed(Fault::NoCommand);
    check(&rt, &mut folder, &mut never, Job::Begin, b"LKMNU", b"h");
    ends(
        &rt,
        &mut folder,
        &mut never,
        Job::Execute,
        b"",
        refused,
        b"LKU",
        b"h",
    );
    answers(&rt, &never, b"");
    check(&rt, &mut folder, &mut never, Job::Execute, b"LKPU", b"he");
}

#[test]
fn without_a_journal_only_begin_is_done(rt: HostRuntime) {
    let mut folder = Folder::new(rt.alloc());
    let mut never = Keeper::new(rt.alloc(), Force::Never, FAR);
    for job in [Job::Execute, Job::Renew, Job::Show, Job::Cut] {
        ends(
            &rt,
            &mut folder,
            &mut never,
            job,
            b"command",
            NO_JOURNAL,
            b"LKU",
            b"",
        );
    }
    check(&rt, &mut folder, &mut never, Job::Begin, b"LKMNU", b"h");
}

// Each holder reads what the other holders added. The holder that syncs before each response cannot
// know that these bytes were synced, so it writes the same bytes again. No other holder does so.
#[test]
fn holders_of_each_word_take_turns(rt: HostRuntime) {
    let mut folder = Folder::new(rt.alloc());
    let mut never = Keeper::new(rt.alloc(), Force::Never, FAR);
    let mut power = Keeper::new(rt.alloc(), Force::Power, FAR);
    let mut always = Keeper::new(rt.alloc(), Force::Always, FAR);
    check(&rt, &mut folder, &mut never, Job::Begin, b"LKMNU", b"h");
    check(&rt, &mut folder, &mut never, Job::Execute, b"LKPU", b"he");
    check(
        &rt,
        &mut folder,
        &mut power,
        Job::Execute,
        b"LKRPSU",
        b"hee",
    );
    check(&rt, &mut folder, &mut power, Job::Execute, b"LKPU", b"heee");
    check(
        &rt,
        &mut folder,
        &mut always,
        Job::Execute,
        b"LKRRPFSU",
        b"heeee",
    );
    check(
        &rt,
        &mut folder,
        &mut always,
        Job::Execute,
        b"LKPFU",
        b"heeeee",
    );
    check(
        &rt,
        &mut folder,
        &mut never,
        Job::Execute,
        b"LKRRPU",
        b"heeeeee",
    );
}

#[test]
fn a_grown_journal_begins_anew_with_the_entry(rt: HostRuntime) {
    let mut folder = Folder::new(rt.alloc());
    let mut keeper = Keeper::new(rt.alloc(), Force::Power, 2);
    check(&rt, &mut folder, &mut keeper, Job::Begin, b"LKMNSU", b"h");
    check(&rt, &mut folder, &mut keeper, Job::Execute, b"LKPU", b"he");
    check(
        &rt,
        &mut folder,
        &mut keeper,
        Job::Execute,
        b"LKMNSU",
        b"he",
    );
}

#[test]
fn a_small_limit_does_not_renew_a_small_journal(rt: HostRuntime) {
    let mut folder = Folder::new(rt.alloc());
    let mut keeper = Keeper::new(rt.alloc(), Force::Never, 0);
    check(&rt, &mut folder, &mut keeper, Job::Begin, b"LKMNU", b"h");
    check(&rt, &mut folder, &mut keeper, Job::Execute, b"LKPU", b"he");
    check(&rt, &mut folder, &mut keeper, Job::Execute, b"LKMNU", b"he");
}

#[test]
fn a_cut_of_a_whole_journal_changes_nothing(rt: HostRuntime) {
    let mut folder = Folder::new(rt.alloc());
    let mut never = Keeper::new(rt.alloc(), Force::Never, FAR);
    check(&rt, &mut folder, &mut never, Job::Begin, b"LKMNU", b"h");
    check(&rt, &mut folder, &mut never, Job::Execute, b"LKPU", b"he");
    check(&rt, &mut folder, &mut never, Job::Cut, b"LKU", b"he");
    let mut always = Keeper::new(rt.alloc(), Force::Always, FAR);
    check(&rt, &mut folder, &mut always, Job::Cut, b"LKRPFSU", b"he");
    answers(&rt, &always, b"");
}

// The undamaged beginning of this journal is its head. Only the job `Cut` continues from there, in
// a new journal.
#[test]
fn a_cut_begins_a_damaged_journal_anew(rt: HostRuntime) {
    let mut folder = Folder::new(rt.alloc());
    let mut other = Keeper::new(rt.alloc(), Force::Never, FAR);
    check(&rt, &mut folder, &mut other, Job::Begin, b"LKMNU", b"h");
    assert!(&rt; folder.journal.extend_from_slice(b"xe").is_ok());
    let mut power = Keeper::new(rt.alloc(), Force::Power, FAR);
    for job in [Job::Execute, Job::Renew, Job::Show, Job::Begin] {
        ends(
            &rt,
            &mut folder,
            &mut power,
            job,
            b"command",
            DAMAGED,
            b"LKRU",
            b"hxe",
        );
    }
    check(&rt, &mut folder, &mut power, Job::Cut, b"LKRMNSU", b"h");
    assert!(&rt; folder.whole == 1);
    answers(&rt, &power, b"");
    check(&rt, &mut folder, &mut power, Job::Execute, b"LKPU", b"he");
}

// The file no longer matches the device in memory, so the first `Cut` drops the device. The second
// `Cut` reads the file.
#[test]
fn a_device_in_memory_is_dropped_before_a_cut(rt: HostRuntime) {
    let mut folder = Folder::new(rt.alloc());
    let mut never = Keeper::new(rt.alloc(), Force::Never, FAR);
    check(&rt, &mut folder, &mut never, Job::Begin, b"LKMNU", b"h");
    assert!(&rt; folder.journal.push(b'x').is_ok());
    ends(
        &rt,
        &mut folder,
        &mut never,
        Job::Cut,
        b"",
        DAMAGED,
        b"LKRU",
        b"hx",
    );
    check(&rt, &mut folder, &mut never, Job::Cut, b"LKRMNU", b"h");
}

// No prefix of an empty file is a journal.
#[test]
fn nothing_is_salvaged_of_an_empty_file(rt: HostRuntime) {
    let mut folder = Folder::new(rt.alloc());
    let mut never = Keeper::new(rt.alloc(), Force::Never, FAR);
    folder.number = 1;
    for job in [Job::Begin, Job::Cut] {
        ends(&rt, &mut folder, &mut never, job, b"", DAMAGED, b"LKU", b"");
    }
}

// The request for a new journal says how much of the old journal the device executed.
#[test]
fn a_new_journal_follows_a_whole_one(rt: HostRuntime) {
    let mut folder = Folder::new(rt.alloc());
    let mut never = Keeper::new(rt.alloc(), Force::Never, FAR);
    check(&rt, &mut folder, &mut never, Job::Begin, b"LKMNU", b"h");
    assert!(&rt; folder.whole == 0);
    check(&rt, &mut folder, &mut never, Job::Execute, b"LKPU", b"he");
    check(&rt, &mut folder, &mut never, Job::Renew, b"LKMNU", b"h");
    assert!(&rt; folder.whole == 2);
    folder.number = 0;
    check(&rt, &mut folder, &mut never, Job::Begin, b"LKMNU", b"h");
    assert!(&rt; folder.whole == 0);
}
