//! Steps on the host's devices, over real files in the folder that the program runs in.

use crate::mail::say_attached;
use crate::saying::{Devices, say_ok, say_steps};
use crate::sites::say_on_site;
use sr_base::NoMemory;
use sr_hostsite::{HostSink, HostSite, HostSource};
use sr_site::{Failed, Sink, Source};
use std::alloc::Global;
use std::fs;
use test_rows::{say, say_number, word};

/// Two sites, of which the first one makes the calls, and the host itself.
#[derive(Drop)]
struct Host {
    rt: HostRuntime,
    site: HostSite<HostRuntime>,
    other: HostSite<HostRuntime>,
}

pub fn say_host(rt: HostRuntime, steps: &str, out: &mut Vec<u8>) -> Result<(), NoMemory> {
    let (site, other) = (HostSite::new(rt), HostSite::new(rt));
    let mut host = Host { rt, site, other };
    let said = say_steps(rt.alloc(), &mut host, steps, out);
    drop(host);
    said
}

impl Devices for Host {
    fn say_step(&mut self, alloc: Global, step: &str, out: &mut Vec<u8>) -> Result<(), NoMemory> {
        match word(step, 0) {
            "other" => say_attached(alloc, &mut self.other, step, out),
            "folder" | "file" | "gone" => say_made(&self.rt, step, out),
            _ => say_on_site(alloc, &mut self.site, step, out),
        }
    }
}

/// Makes a folder anew, or a file beside those of the site; or takes a folder away.
fn say_made(rt: &HostRuntime, step: &str, out: &mut Vec<u8>) -> Result<(), NoMemory> {
    let path = word(step, 1);
    let is_made = match word(step, 0) {
        "folder" => {
            let _ = fs::remove_dir_all(rt, path);
            fs::create_dir(rt, path).is_ok()
        }
        "file" => fs::write(rt, path, word(step, 2)).is_ok(),
        _ => fs::remove_dir_all(rt, path).is_ok(),
    };
    say_ok(out, is_made, "failed")
}

/// Says how many bytes a read of none gives, and how many a write of none takes.
pub fn say_streams(rt: HostRuntime, out: &mut Vec<u8>) -> Result<(), NoMemory> {
    let (mut source, mut sink) = (HostSource::new(rt), HostSink::new(rt));
    say_count(out, source.read(&mut []))?;
    say(out, " ")?;
    say_count(out, sink.write(b""))
}

fn say_count(out: &mut Vec<u8>, count: Result<usize, Failed>) -> Result<(), NoMemory> {
    match count {
        Ok(count) => say_number(out, "", count as u64),
        Err(Failed) => say(out, "failed"),
    }
}
