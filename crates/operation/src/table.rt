// The entries of a table that a row judges.
ghost use Rattle.std.specs.Prelude.{◌≡◌, ◌+◌, ◌*◌, ◌<◌, ◌≤◌, length};
ghost use Rattle.component.specs.Table.{width};
ghost use Rattle.operation.specs.inner.Coded.{item_at};

use component::WIDTH;

// The first `count` entries of a table, which has room for them: at most 64.
#[derive(Clone, Copy)]
pub(crate) struct Entries<'a> {
    pub(crate) table: &'a [u16],
    pub(crate) count: usize,
    ghost room: { width * count ≤ length table.now },
    ghost few: { count ≤ 64 },
}

impl Entries<'_> {
    // The key of an entry: its number twice, and one more where it is a constructor.
    pub(crate) fn key_at(self, entry: usize) -> u64
        requires { entry < self.count }
        ensures { result ≡ (item_at self.entry.table.now entry).is }
    {
        let number = u64::from(self.table[WIDTH * entry]);
        let form = u64::from(self.table[WIDTH * entry + 1]);
        number * 2 + form
    }

    // How many octets its contents are.
    pub(crate) fn size_at(self, entry: usize) -> u16
        requires { entry < self.count }
        ensures { result ≡ (item_at self.entry.table.now entry).size }
    {
        self.table[WIDTH * entry + 3]
    }
}
