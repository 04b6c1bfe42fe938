// Calls of any host. Each tells whether its line could be read.
ghost use Rattle.std.specs.Prelude.{◌≡◌, ◌⊎◌, ◌++◌, Some, OnOk, IsErrOf};
ghost use Rattle.cc_host.specs.Count.{Rose};
ghost use Rattle.cc_host.specs.Host.{IfShown, file_of};

use crate::page::Page;
use crate::text::{bytes_of, split_word};
use cc_host::{Host, HostFault};
use std::alloc::Global;

/// More bytes than these are shown by their number alone.
const MOST_SHOWN: usize = 64;

/// What a list of bytes begins with, so that what is read is seen to be appended.
pub const BEGIN: &[u8] = b"//";

fn add_fault(page: &mut Page, answer: Result<(), HostFault>) {
    match answer {
        Ok(()) => page.add("  done"),
        Err(HostFault::Failed) => page.add("  failed"),
        Err(HostFault::Memory) => page.add("  memory"),
    }
}

/// The line of an answer.
pub fn add_answer(page: &mut Page, answer: Result<(), HostFault>) {
    add_fault(page, answer);
    page.add("\n");
}

/// The line of an answer with the bytes of a list.
pub fn add_answer_with(page: &mut Page, answer: Result<(), HostFault>, bytes: &[u8]) {
    add_fault(page, answer);
    if bytes.len() > MOST_SHOWN {
        page.add(", bytes ");
        page.add_number(bytes.len() as u64);
        page.add("\n");
    } else {
        page.end_with(bytes);
    }
}

/// `NAME`: reads a file.
pub fn read<H: Host>(alloc: Global, host: &mut H, name: &str, page: &mut Page) -> bool {
    let Ok(mut bytes) = Vec::from_slice(alloc, BEGIN) else {
        return false;
    };
    let answer = host.read(name, &mut bytes);
    add_answer_with(page, answer, bytes.as_slice());
    true
}

/// `NAME TEXT`: writes a file.
pub fn write<H: Host>(alloc: Global, host: &mut H, text: &str, page: &mut Page) -> bool {
    let (name, text) = split_word(text);
    let Some(bytes) = bytes_of(alloc, text) else {
        return false;
    };
    let answer = host.write(name, bytes.as_slice());
    add_answer(page, answer);
    true
}

/// `TEXT`: tells it.
pub fn tell<H: Host>(alloc: Global, host: &mut H, text: &str, page: &mut Page) -> bool {
    let Some(bytes) = bytes_of(alloc, text) else {
        return false;
    };
    let answer = host.tell(bytes.as_slice());
    add_answer(page, answer);
    true
}

/// Copies a file, and tells its bytes.
fn copy_and_tell<H: Host>(
    host: &mut H,
    from: &str,
    to: &str,
    bytes: &mut Vec<u8>,
) -> Result<(), HostFault>
    ensures done { OnOk result (IfShown (H.view host.old).shown (H.view host.new).shown (λ before after.
        (file_of after to.now ≡ Some bytes.new.items) × (after.told ≡ before.told ++ bytes.new.items))) }
    ensures failed { IsErrOf result HostFault.Failed →
        Rose (H.view host.old).faults (H.view host.new).faults ⊎ Rose (H.view host.old).tell_faults (H.view host.new).tell_faults }
{
    host.read(from, bytes)?;
    host.write(to, bytes.as_slice())?;
    host.tell(bytes.as_slice())
}

/// `FROM TO`: copies a file, and tells the bytes of the copy.
pub fn copy<H: Host>(alloc: Global, host: &mut H, text: &str, page: &mut Page) -> bool {
    let (from, to) = split_word(text);
    let Ok(mut bytes) = Vec::from_slice(alloc, BEGIN) else {
        return false;
    };
    let answer = copy_and_tell(host, from, to, &mut bytes);
    add_answer_with(page, answer, bytes.as_slice());
    true
}
