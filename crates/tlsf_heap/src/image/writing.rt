//! An image is written.

ghost use Rattle.std.specs.Prelude.{◌≡◌, ◌+◌, ◌*◌, ◌%◌, ◌≤◌, ◌<◌, length};
ghost use Rattle.std.specs.List.{flat_map};
ghost use Rattle.arrayvec.specs.ArrayVec.{array_vec_len};
ghost use Rattle.tlsf_class.specs.Classes.{unit, classes};
ghost use Rattle.tlsf_store.specs.Records.{most_records};
ghost use Rattle.tlsf_store.specs.Cells.{most_pools};
ghost use Rattle.mtrace_log.specs.Output.{Puts};
ghost use Rattle.tlsf_heap.specs.Images.Writing.{Appends, two, four, block_bytes, record_bytes, entry_bytes, head_bytes, header_bytes, image_of};
ghost use Rattle.tlsf_heap.specs.Images.Findings.{OnlyReads, Finds};
ghost use Rattle.tlsf_heap.specs.Inner.Entries.{entries_of};

use super::HasSections;
use super::header::MAGIC;
use arrayvec::ArrayVec;
use mtrace_log::{Failed, Sink, put_all};
use tlsf_class::{CLASSES, Class};
use tlsf_store::{MISSING, MOST_POOLS, Pool, Record, Slot, State};

/// How many bytes a writer is handed at once.
const PIECE: usize = 4_096;

type Piece = ArrayVec<u8, PIECE>;

/// Appends bytes, for which there is room.
fn push_bytes(piece: &mut Piece, bytes: &[u8])
    requires { array_vec_len piece.old + length bytes.now ≤ PIECE }
    ensures appended { Appends piece.old.items piece.new.items bytes.now (length bytes.now) }
{
    let _fits = piece.try_extend_from_slice(bytes);
}

/// Appends a number in two bytes, the lowest first.
fn push_two(piece: &mut Piece, number: u16)
    requires { array_vec_len piece.old + 2 ≤ PIECE }
    ensures appended { Appends piece.old.items piece.new.items (two number) 2 }
{
    push_bytes(piece, &number.to_le_bytes());
}

/// Appends a number in four bytes, the lowest first.
fn push_four(piece: &mut Piece, number: u32)
    requires { array_vec_len piece.old + 4 ≤ PIECE }
    ensures appended { Appends piece.old.items piece.new.items (four number) 4 }
{
    push_two(piece, (number % 65_536) as u16);
    push_two(piece, (number / 65_536) as u16);
}

/// Appends the word of a link.
fn push_link(piece: &mut Piece, link: Option<Slot>)
    requires { array_vec_len piece.old + 2 ≤ PIECE }
    ensures appended { Appends piece.old.items piece.new.items (head_bytes link) 2 }
{
    push_two(
        piece,
        match link {
            Some(slot) => slot.0,
            None => MISSING,
        },
    );
}

/// Appends the entry of a pool, or zeros.
fn push_entry(piece: &mut Piece, entry: Option<Pool>)
    requires { array_vec_len piece.old + 12 ≤ PIECE }
    ensures appended { Appends piece.old.items piece.new.items (entry_bytes entry) 12 }
{
    let Some(pool) = entry else {
        return push_bytes(piece, &[0; 12]);
    };
    push_four(piece, pool.base);
    push_four(piece, pool.bytes);
    push_two(piece, pool.first.0);
    push_bytes(piece, &[0; 2]);
}

/// Appends a block with the code of its state.
fn push_block(piece: &mut Piece, code: u32, block: &Record)
    requires room { array_vec_len piece.old + 16 ≤ PIECE }
    requires below { code < unit }
    requires whole { block.now.size % unit ≡ 0 }
    ensures appended { Appends piece.old.items piece.new.items (block_bytes code block.now) 16 }
{
    push_four(piece, block.place);
    push_four(piece, block.size + code);
    push_link(piece, block.prev);
    push_link(piece, block.next);
    push_link(piece, block.prev_free);
    push_link(piece, block.next_free);
}

/// Appends a record; a vacant one is zero.
fn push_record(piece: &mut Piece, block: &Record)
    requires room { array_vec_len piece.old + 16 ≤ PIECE }
    requires whole { block.now.size % unit ≡ 0 }
    ensures appended { Appends piece.old.items piece.new.items (record_bytes block.now) 16 }
{
    match block.state {
        State::Vacant => push_bytes(piece, &[0; 16]),
        State::Free => push_block(piece, 1, block),
        State::Live => push_block(piece, 2, block),
    }
}

/// How many pools there are.
fn count_pools<T: HasSections>(table: &mut T) -> u16
    ensures { Finds result (length (entries_of (T.sections table.old).pools)) T.sections T.cells T.touches table.old table.new }
{
    let mut pools = 0;
    for number in 0..MOST_POOLS as u32 {
        if table.pool(number).is_some() {
            pools += 1;
        }
    }
    pools
}

/// Appends the magic, how many records and pools there are, and zeros.
fn push_header<T: HasSections>(piece: &mut Piece, table: &mut T)
    requires { array_vec_len piece.old + 16 ≤ PIECE }
    ensures appended { Appends piece.old.items piece.new.items (header_bytes (T.sections table.old)) 16 }
    ensures read { OnlyReads T.sections T.cells T.touches table.old table.new }
{
    let pools = count_pools(table);
    push_bytes(piece, MAGIC);
    push_two(piece, table.count() as u16);
    push_two(piece, pools);
    push_bytes(piece, &[0; 4]);
}

/// Appends the entries of all pools.
fn push_entries<T: HasSections>(piece: &mut Piece, table: &mut T)
    requires { array_vec_len piece.old + 12 * most_pools ≤ PIECE }
    ensures appended { Appends piece.old.items piece.new.items (flat_map entry_bytes (T.sections table.old).pools) (12 * most_pools) }
    ensures read { OnlyReads T.sections T.cells T.touches table.old table.new }
{
    for number in 0..MOST_POOLS as u32 {
        push_entry(piece, table.pool(number));
    }
}

/// Appends the heads of all classes.
fn push_heads<T: HasSections>(piece: &mut Piece, table: &mut T)
    requires { array_vec_len piece.old + 2 * classes ≤ PIECE }
    ensures appended { Appends piece.old.items piece.new.items (flat_map head_bytes (T.sections table.old).heads) (2 * classes) }
    ensures read { OnlyReads T.sections T.cells T.touches table.old table.new }
{
    for number in 0..CLASSES {
        push_link(piece, table.head(Class::new(number)));
    }
}

/// Puts the image of a table, in pieces of 4,096 bytes and a last one. It takes no memory.
///
/// # Errors
///
/// `Failed` where the writer failed, or took no byte of some: then a beginning of the image is put.
pub fn put_image<T: HasSections, W: Sink>(table: &mut T, writer: &mut W) -> Result<(), Failed>
    ensures put { Puts result (image_of (T.sections table.old)) (W.shown writer.old) (W.shown writer.new) }
    ensures some { 0 < length (T.sections table.old).records }
    ensures few { length (T.sections table.old).records ≤ most_records }
    ensures read { OnlyReads T.sections T.cells T.touches table.old table.new }
{
    let mut piece = Piece::new();
    push_header(&mut piece, table);
    push_entries(&mut piece, table);
    push_heads(&mut piece, table);
    for number in 0..table.count() {
        push_record(&mut piece, &table.record(Slot(number as u16)));
        if piece.is_full() {
            put_all(writer, &piece)?;
            piece.clear();
        }
    }
    put_all(writer, &piece)
}
