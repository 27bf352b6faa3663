//! One run of the program on the site of an office.

use dbremote_run::run;
use sr_base::{NoMemory, Text};
use sr_memsite::{MemorySink, MemorySite, MemorySource};
use sr_site::Site;
use std::alloc::Global;
use test_rows::word;
use test_sites::{Change, Shifting, TestSites};

/// What befalls a run.
#[derive(Clone, Copy)]
pub enum Trouble<'a> {
    Nothing,
    /// The call of this number fails.
    Fails(u64),
    /// Only so many calls are made, and then a crash of this pick follows.
    Stops(u64, u64),
    /// The change that a kind of row tells.
    Changes(&'a str),
    /// The first call of the script's source fails.
    Source,
    /// The first call of the sink that takes the lines fails.
    Sink,
}

impl Trouble<'_> {
    fn is_of_streams(&self) -> bool {
        matches!(self, Trouble::Source | Trouble::Sink)
    }
}

/// How a run ended: its status, and the devices of which a call has failed.
#[derive(Clone, Copy)]
pub struct Ended {
    pub status: u8,
    pub disk: bool,
    pub mail: bool,
    pub streams: bool,
}

impl Ended {
    /// Whether no call of a device has failed.
    pub fn is_whole(&self) -> bool {
        !self.disk && !self.mail && !self.streams
    }

    /// Whether the status is that of the device that failed, or of none: all was done, some of it with a report, or a statement was refused.
    pub fn is_right(&self) -> bool {
        match self.status {
            0 | 1 | 4 => self.is_whole(),
            5 => self.disk && !self.mail && !self.streams,
            6 => self.mail && !self.disk && !self.streams,
            7 => self.streams && !self.disk && !self.mail,
            _ => false,
        }
    }
}

/// Runs the program with words on the site of the office that the second one names. What it prints is appended to `out`.
pub fn run_at(
    alloc: Global,
    test_sites: &mut TestSites,
    words: &str,
    script: &[u8],
    trouble: Trouble,
    out: &mut Vec<u8>,
) -> Result<Ended, NoMemory> {
    let change = change_of(alloc, trouble)?;
    let site = test_sites.take_site(alloc, word(words, 1));
    let mut shifting = Shifting {
        site,
        change,
        fetches: 0,
    };
    let ended = run_befallen(alloc, &mut shifting, words, script, trouble, out);
    let Shifting { site, change, .. } = shifting;
    drop(change);
    test_sites.give_back(word(words, 1), site);
    ended
}

fn change_of(alloc: Global, trouble: Trouble) -> Result<Change, NoMemory> {
    match trouble {
        Trouble::Changes(kind) => Change::of(alloc, kind),
        _ => Change::of(alloc, ""),
    }
}

/// Runs the program while the trouble lasts.
fn run_befallen(
    alloc: Global,
    shifting: &mut Shifting,
    words: &str,
    script: &[u8],
    trouble: Trouble,
    out: &mut Vec<u8>,
) -> Result<Ended, NoMemory> {
    begin(alloc, &mut shifting.site, trouble)?;
    let status = run_words(alloc, words, shifting, script, trouble, out)?;
    let ended = Ended {
        status,
        disk: shifting.site.disk_faults() > 0,
        mail: shifting.site.mail_faults() > 0,
        streams: trouble.is_of_streams(),
    };
    end(alloc, &mut shifting.site, trouble)?;
    Ok(ended)
}

fn begin(alloc: Global, site: &mut MemorySite, trouble: Trouble) -> Result<(), NoMemory> {
    match trouble {
        Trouble::Fails(call) => site.fail_calls(alloc, &[call]),
        Trouble::Stops(calls, _) => {
            site.stop_after(calls);
            Ok(())
        }
        _ => Ok(()),
    }
}

fn end(alloc: Global, site: &mut MemorySite, trouble: Trouble) -> Result<(), NoMemory> {
    match trouble {
        Trouble::Stops(_, pick) => site.crash(alloc, pick),
        _ => Ok(()),
    }
}

/// Runs the program with words on any site.
fn run_words<S: Site>(
    alloc: Global,
    words: &str,
    site: &mut S,
    script: &[u8],
    trouble: Trouble,
    out: &mut Vec<u8>,
) -> Result<u8, NoMemory> {
    let words = texts_of(alloc, words)?;
    let status = run_texts(alloc, words.as_slice(), site, script, trouble, out);
    drop(words);
    status
}

/// The words, of the agent with the mail folder behind the name.
fn texts_of(alloc: Global, words: &str) -> Result<Vec<Text>, NoMemory> {
    let mut texts = Vec::new(alloc);
    match push_words(alloc, words, &mut texts) {
        Ok(()) => Ok(texts),
        Err(refused) => {
            drop(texts);
            Err(refused)
        }
    }
}

fn push_words(alloc: Global, words: &str, texts: &mut Vec<Text>) -> Result<(), NoMemory> {
    let is_agent = words.starts_with("agent");
    for word in words.split(' ') {
        push_text(alloc, word, texts)?;
        if is_agent && texts.len() == 2 {
            push_text(alloc, "--mail", texts)?;
            push_text(alloc, "m", texts)?;
        }
    }
    Ok(())
}

fn push_text(alloc: Global, word: &str, texts: &mut Vec<Text>) -> Result<(), NoMemory> {
    texts.push(Text::from_str(alloc, word)?)?;
    Ok(())
}

fn run_texts<S: Site>(
    alloc: Global,
    words: &[Text],
    site: &mut S,
    script: &[u8],
    trouble: Trouble,
    out: &mut Vec<u8>,
) -> Result<u8, NoMemory> {
    let mut input = MemorySource::new(Vec::from_slice(alloc, script)?);
    let mut output = MemorySink::new(alloc);
    let status = run_between(alloc, words, site, &mut input, &mut output, trouble);
    let kept = out.extend_from_slice(output.bytes());
    drop(output);
    drop(input);
    kept?;
    status
}

/// Runs the program from a source to a sink, of which one may fail.
fn run_between<S: Site>(
    alloc: Global,
    words: &[Text],
    site: &mut S,
    input: &mut MemorySource,
    output: &mut MemorySink,
    trouble: Trouble,
) -> Result<u8, NoMemory> {
    match trouble {
        Trouble::Source => input.fail_calls(alloc, &[1])?,
        Trouble::Sink => output.fail_calls(alloc, &[1])?,
        _ => {}
    }
    Ok(run(alloc, words, site, input, output, 0))
}
