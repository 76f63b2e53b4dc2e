// The first page of an empty file, which says how long its pages are.
use crate::cause::{FileCause, cause_of_disk};
use sqlite_disk::{Disk, Files};

// So long are the pages of a file that a run makes. A commit writes each page whole that it changes, and a put changes
// some fourteen: pages of 4,096 bytes take nearly twice the instructions.
const PAGE: usize = 1024;

// The bytes of the first page that are not zero, and those between them: the header of a database (SQLite's file format,
// section 1.3), whose log is written ahead and whose text is UTF-8, and that of a table without rows.
const HEADER: [u8; 108] = [
    // its name, and the length of a page
    83, 81, 76, 105, 116, 101, 32, 102, 111, 114, 109, 97, 116, 32, 51, 0, 4, 0,
    // written and read with a log, no bytes reserved, and three fixed numbers
    2, 2, 0, 64, 32, 32,
    // no change, one page, none free
    0, 0, 0, 0, 0, 0, 0, 1, 0, 0, 0, 0, 0, 0, 0, 0,
    // no schema
    0, 0, 0, 0, 0, 0, 0, 0, 0, 0, 0, 0, 0, 0, 0, 0,
    // UTF-8, and what nobody sets
    0, 0, 0, 1, 0, 0, 0, 0, 0, 0, 0, 0, 0, 0, 0, 0, 0, 0, 0, 0, 0, 0, 0, 0, 0, 0, 0, 0, 0, 0, 0, 0,
    0, 0, 0, 0,
    // the count of changes for which the number of pages holds, and the version of SQLite
    0, 0, 0, 0, 0, 46, 118, 136,
    // a leaf of a table without a row, whose content begins at the page's end
    13, 0, 0, 0, 0, 4, 0, 0,
];

fn first_page() -> [u8; PAGE] {
    let mut page = [0; PAGE];
    for at in 0..HEADER.len() {
        page[at] = HEADER[at];
    }
    page
}

// Empties a file to which the first page was not written whole, if the disk lets it be emptied.
fn empty<D: Disk>(db: &mut D) {
    if db.may_be_used() {
        let _ = db.set_len(0);
    }
}

// Writes the first page to an empty file. It is synced before anything else is written, so that no crash leaves commits in
// the log of a file without it.
fn write_first<D: Disk>(db: &mut D) -> Result<(), FileCause> {
    if !db.may_be_used() {
        return Err(FileCause::ReadOrWrite);
    }
    if let Err(error) = db.write_at(0, &first_page()) {
        empty(db);
        return Err(cause_of_disk(error));
    }
    if !db.may_be_used() {
        return Err(FileCause::ReadOrWrite);
    }
    match db.sync() {
        Ok(()) => Ok(()),
        Err(error) => Err(cause_of_disk(error)),
    }
}

fn len_of<D: Disk>(disk: &mut D) -> Result<usize, FileCause> {
    if !disk.may_be_used() {
        return Err(FileCause::ReadOrWrite);
    }
    match disk.len() {
        Ok(len) => Ok(len),
        Err(error) => Err(cause_of_disk(error)),
    }
}

// Reads the first bytes of a file.
fn read<D: Disk>(db: &mut D, bytes: &mut [u8]) -> Result<(), FileCause> {
    if !db.may_be_used() {
        return Err(FileCause::ReadOrWrite);
    }
    match db.read_at(0, bytes) {
        Ok(()) => Ok(()),
        Err(error) => Err(cause_of_disk(error)),
    }
}

// Whether each of these bytes is zero or that of the first page.
fn are_of_first(bytes: &[u8]) -> bool {
    for (byte, wanted) in bytes.iter().zip(&first_page()) {
        if *byte != 0 && byte != wanted {
            return false;
        }
    }
    true
}

// Whether a file is empty, or has no other bytes than a crash leaves of the first page before that is synced.
fn is_blank<D: Disk>(db: &mut D) -> Result<bool, FileCause> {
    let mut page = [0; PAGE];
    let Some(bytes) = page.get_mut(..len_of(db)?) else {
        return Ok(false);
    };
    read(db, bytes)?;
    Ok(are_of_first(bytes))
}

// Makes the pages of an empty file short. One that is not empty, or has a log, stays as it is.
pub(crate) fn shorten_pages<D: Disk>(files: &mut Files<D>) -> Result<(), FileCause> {
    if len_of(&mut files.log)? == 0 && is_blank(&mut files.db)? {
        write_first(&mut files.db)?;
    }
    Ok(())
}
