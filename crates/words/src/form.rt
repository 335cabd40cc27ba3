// What a line says: its head, and its numbers under the names of its fields.
use entries::entry::Entry;

#[derive(Clone, Copy)]
pub enum Form {
    Book {
        parties: i64,
        days: i64,
        pricing: i64,
        default: i64,
        sharing: i64,
    },
    // One of the eight kinds of entry, its fields as given.
    Entry(Entry),
    Show {
        party: i64,
    },
}
