//! The store of the program: a root rule for alice, and the secret `web/site`.

use cipher_port::{Id, MemTool};
use disk_model::MemDisk;
use mount_table::{DirPath, FilePath};
use std::alloc::{AllocError, Global};

const RULE: &[u8] = b"alice\n";

const SECRET: &[u8] = b"gopass-standin 1\nto alice\nbody 70770a\nend\n";

/// The root directory.
pub(crate) fn root(alloc: Global) -> Result<DirPath, AllocError> {
    DirPath::read(alloc, "root").map_err(|_| AllocError)
}

fn path(alloc: Global, text: &str) -> Result<FilePath, AllocError> {
    FilePath::read(alloc, text).map_err(|_| AllocError)
}

/// The disk with the rule and the secret.
pub(crate) fn disk(alloc: Global) -> Result<MemDisk, AllocError> {
    let mut files = Vec::new(alloc);
    files.push((path(alloc, "root/.gpg-id")?, RULE.to_vec(alloc)?))?;
    files.push((path(alloc, "root/web/site.gpg")?, SECRET.to_vec(alloc)?))?;
    MemDisk::new(alloc, files).map_err(|_| AllocError)
}

fn ids(alloc: Global, texts: &[&str]) -> Result<Vec<Id>, AllocError> {
    let mut ids = Vec::new(alloc);
    for text in texts {
        ids.push(Id::read(alloc, text).map_err(|_| AllocError)?)?;
    }
    Ok(ids)
}

/// The tool, which can seal for alice, bob and carol and has the key of alice.
pub(crate) fn tool(alloc: Global) -> Result<MemTool, AllocError> {
    let known = ids(alloc, &["alice", "bob", "carol"])?;
    let held = ids(alloc, &["alice"])?;
    Ok(MemTool::new(known, held, Vec::new(alloc)))
}
