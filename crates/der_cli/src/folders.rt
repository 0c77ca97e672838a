//! The files in folders.
ghost use Rattle.std.specs.Prelude.{◌≡◌, ◌++◌, ◌∷◌, [], IfOk, OnOk, false, map, string_bytes, true};

use crate::inputs::{DASH, report_unread};
use der_actions::name::Name;
use std::alloc::{AllocError, Global};
use std::collections::BTreeSet;
use std::fs::Metadata;
use std::io::{ErrorKind, Write};
use std::os::unix::fs::MetadataExt;
use std::rt::Files;
use std::{fs, io};

/// The files that are to be read.
#[derive(Drop)]
pub(crate) struct FileList {
    /// The names of the files, in order.
    pub names: Vec<String>,
    /// The identities of these files, if folders are read.
    known: BTreeSet<FileId>,
    /// Whether all folders were read to their end and contain a file.
    pub is_whole: bool,
}

/// The identity of a file, whatever its name: its device, and its number there.
#[derive(Clone, Copy, PartialEq, Eq, PartialOrd, Ord)]
struct FileId {
    device: u64,
    number: u64,
}

/// The kind of a name in a folder. A file has its identity, if the system gives one.
#[derive(Clone, Copy)]
enum Kind {
    File(Option<FileId>),
    LinkToFile(Option<FileId>),
    LinkToFolder,
    BrokenLink,
    Folder,
    /// A pipe, a socket or a device.
    Other,
}

/// A file in a folder. Files sort before links, then by name.
#[derive(PartialEq, Eq, PartialOrd, Ord, Drop)]
struct Found {
    is_link: bool,
    name: String,
    id: Option<FileId>,
}

/// The files of a folder and of the folders inside it.
#[derive(Drop)]
struct FolderContents {
    files: Vec<Found>,
    /// The names that are still to be looked at. The last one is the next.
    names: Vec<String>,
    is_whole: bool,
}

/// Lists files. If `is_recursive`, a folder is replaced by the files in it. Anything in a folder that is skipped or
/// can't be read is reported.
pub(crate) fn list_files<R: Files + AllocGlobal + Clone + Drop, X: Write>(
    rt: &R,
    files: &[&str],
    is_recursive: bool,
    err: &mut X,
) -> io::Result<FileList>
    ensures names { is_recursive ≡ false
        → IfOk result (λ list. map string_bytes list.names.items ≡ map (λ f. f.now) files.now) }
    ensures whole { is_recursive ≡ false → IfOk result (λ list. list.is_whole ≡ true) }
{
    let mut list = FileList::new(rt.alloc());
    for file in files {
        list.add(rt, file, is_recursive, err)?;
    }
    Ok(list)
}

impl FileList {
    /// No files.
    fn new(alloc: Global) -> FileList
        ensures names { result.names.items ≡ [] }
        ensures whole { result.is_whole ≡ true }
    {
        FileList {
            names: Vec::new(alloc),
            known: BTreeSet::new(alloc),
            is_whole: true,
        }
    }

    /// Adds a file, or if `is_recursive` the files in a folder.
    fn add<R: Files + AllocGlobal + Clone + Drop, X: Write>(
        &mut self,
        rt: &R,
        file: &str,
        is_recursive: bool,
        err: &mut X,
    ) -> io::Result<()>
        ensures names { is_recursive ≡ false → OnOk result (map string_bytes self.new.names.items
            ≡ map string_bytes self.old.names.items ++ file.now ∷ []) }
        ensures whole { is_recursive ≡ false → OnOk result (self.new.is_whole ≡ self.old.is_whole) }
    {
        if is_recursive && file != DASH {
            return self.add_argument(rt, file, err);
        }
        Ok(self.names.push(String::from_str(rt.alloc(), file)?)?)
    }

    /// Adds a file, or the files in a folder. A name that can't be read is added, so that reading it gives the reason.
    fn add_argument<R: Files + AllocGlobal + Clone + Drop, X: Write>(
        &mut self,
        rt: &R,
        name: &str,
        err: &mut X,
    ) -> io::Result<()> {
        let id = match fs::metadata(rt, name) {
            Ok(metadata) if metadata.is_dir() => return self.add_folder(rt, name, err),
            Ok(metadata) => id_of(&metadata),
            Err(_) => None,
        };
        if self.is_new(id)? {
            self.names.push(String::from_str(rt.alloc(), name)?)?;
        }
        Ok(())
    }

    /// Adds the files in a folder and in the folders inside it, in the order of their names.
    fn add_folder<R: Files + AllocGlobal + Clone + Drop, X: Write>(
        &mut self,
        rt: &R,
        folder: &str,
        err: &mut X,
    ) -> io::Result<()> {
        let FolderContents {
            mut files,
            is_whole,
            ..
        } = tree_of(rt, folder, err)?;
        if is_whole && files.is_empty() {
            writeln!(err, "der: {}: no file in it", Name(folder))?;
        }
        self.is_whole = self.is_whole && is_whole && !files.is_empty();
        files.sort()?;
        let mut names = Vec::new(rt.alloc());
        for Found { name, id, .. } in files {
            if self.is_new(id)? {
                names.push(name)?;
            }
        }
        names.sort()?;
        Ok(self.names.append(&mut names)?)
    }

    /// Whether a file isn't known yet, and makes it known. A file without an identity always counts as new.
    fn is_new(&mut self, id: Option<FileId>) -> Result<bool, AllocError> {
        match id {
            Some(id) => Ok(self.known.insert(id)?),
            None => Ok(true),
        }
    }
}

/// The files of a folder and of the folders inside it.
fn tree_of<R: Files + AllocGlobal + Clone + Drop, X: Write>(
    rt: &R,
    folder: &str,
    err: &mut X,
) -> io::Result<FolderContents> {
    let mut tree = FolderContents {
        files: Vec::new(rt.alloc()),
        names: Vec::new(rt.alloc()),
        is_whole: true,
    };
    tree.enter(rt, folder, err)?;
    for _ in 0..u64::MAX {
        match tree.names.pop() {
            Some(name) => tree.add(rt, name, err)?,
            None => break,
        }
    }
    Ok(tree)
}

impl FolderContents {
    /// Takes the names in a folder, of which the first is looked at next.
    fn enter<R: Files + AllocGlobal + Clone + Drop, X: Write>(
        &mut self,
        rt: &R,
        folder: &str,
        err: &mut X,
    ) -> io::Result<()> {
        let entries = match fs::read_dir(rt, folder) {
            Ok(entries) => entries,
            Err(e) => return self.report(folder, &e, err),
        };
        let mut names = Vec::new(rt.alloc());
        for entry in entries {
            match entry {
                Ok(entry) => names.push(String::from_str(rt.alloc(), entry.path().as_str())?)?,
                Err(e) => self.report(folder, &e, err)?,
            }
        }
        names.sort()?;
        names.reverse();
        Ok(self.names.append(&mut names)?)
    }

    /// Adds the file with this name, takes the names in the folder, or reports that it is skipped.
    fn add<R: Files + AllocGlobal + Clone + Drop, X: Write>(
        &mut self,
        rt: &R,
        name: String,
        err: &mut X,
    ) -> io::Result<()> {
        match kind_of(rt, &name) {
            Ok(Kind::File(id)) => self.add_file(name, id, false),
            Ok(Kind::LinkToFile(id)) => self.add_file(name, id, true),
            Ok(Kind::Folder) => self.enter(rt, &name, err),
            Ok(Kind::LinkToFolder) => skip(&name, "it is a link to a folder", err),
            Ok(Kind::BrokenLink) => skip(&name, "it is a broken link", err),
            Ok(Kind::Other) => skip(&name, "it is a pipe, a socket or a device", err),
            Err(e) => self.report(&name, &e, err),
        }
    }

    /// Adds a file.
    fn add_file(&mut self, name: String, id: Option<FileId>, is_link: bool) -> io::Result<()> {
        Ok(self.files.push(Found { is_link, name, id })?)
    }

    /// Reports a name that can't be read.
    fn report<X: Write>(&mut self, name: &str, e: &io::Error, err: &mut X) -> io::Result<()> {
        self.is_whole = false;
        if e.kind() == ErrorKind::InvalidFilename && e.raw_os_error().is_none() {
            return writeln!(err, "der: {}: a name in it isn't UTF-8", Name(name));
        }
        report_unread(name, e, err)
    }
}

/// Reports that a name in a folder is skipped.
fn skip<X: Write>(name: &str, why: &str, err: &mut X) -> io::Result<()> {
    writeln!(err, "der: {}: skipped, {why}", Name(name))
}

/// The kind of a name in a folder.
fn kind_of<R: Files>(rt: &R, name: &str) -> io::Result<Kind> {
    let metadata = fs::symlink_metadata(rt, name)?;
    if !metadata.is_symlink() {
        return Ok(own_kind(&metadata));
    }
    match fs::metadata(rt, name) {
        Ok(target) => Ok(linked_kind(&target)),
        Err(e) if is_of_broken_link(e.kind()) => Ok(Kind::BrokenLink),
        Err(e) => Err(e),
    }
}

/// The kind of something with this metadata that isn't a link.
fn own_kind(metadata: &Metadata) -> Kind {
    if metadata.is_dir() {
        Kind::Folder
    } else if metadata.is_file() {
        Kind::File(id_of(metadata))
    } else {
        Kind::Other
    }
}

/// The kind of a link to something with this metadata.
fn linked_kind(target: &Metadata) -> Kind {
    match own_kind(target) {
        Kind::Folder => Kind::LinkToFolder,
        Kind::File(id) => Kind::LinkToFile(id),
        kind => kind,
    }
}

/// Whether this error is that of a link to nothing or to itself.
fn is_of_broken_link(kind: ErrorKind) -> bool {
    matches!(
        kind,
        ErrorKind::NotFound | ErrorKind::NotADirectory | ErrorKind::FilesystemLoop
    )
}

/// The identity of the file with this metadata. None if its number is 0, as in a file system without numbers.
fn id_of(metadata: &Metadata) -> Option<FileId> {
    let id = FileId {
        device: metadata.dev(),
        number: metadata.ino(),
    };
    (id.number != 0).then_some(id)
}
