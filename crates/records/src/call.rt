// A recorded call, behind its sheet: 14 list lengths, the limit, the answer, the numbers of edges, plans and memo entries, the visits and the
// chosen plan, each a word; then the edges of 28 bytes, the plans of 40 and the memo entries of 12.
ghost use Rattle.std.specs.Prelude.{◌≡◌, ◌*◌, ◌<◌, ◌≤◌, min};
ghost use Rattle.records.specs.Records.{word_at};

// Where the entries of one kind begin in a record, and how many there are.
#[derive(Clone, Copy)]
pub struct Table {
    pub at: usize,
    pub count: usize,
    pub ghost within: { (at ≤ 60000) × (count ≤ 4096) },
}

// The entries of a recorded call, and where they end.
#[derive(Clone, Copy)]
pub struct Places {
    pub edges: Table,
    pub plans: Table,
    pub memo: Table,
    pub end: usize,
    pub ghost bounds: { (edges.count ≤ 256) × (plans.count ≤ 1088) × (memo.count ≤ 512) },
}

// The recorded length of list k, and at most this many.
pub fn list_length(words: &[u8], k: usize, most: usize) -> usize
    requires { k < 14 }
    ensures { (result ≡ min (word_at words.now (4 * k)) most) × (result ≤ most) }
{
    (crate::word(words, 4 * k) as usize).min(most)
}

// The recorded limit.
pub fn limit(words: &[u8]) -> u32
    ensures { result ≡ word_at words.now 56 }
{
    crate::word(words, 56)
}

impl Places {
    ghost use Rattle.records.specs.Places.{places_in};

    // Where a record's words say that its entries are: at most 256 edges, 1,088 plans and 512 memo entries.
    pub fn of(words: &[u8]) -> Self
        ensures { result ≡ places_in words.now }
    {
        let edges = Table {
            at: 84,
            count: (crate::word(words, 64) as usize).min(256),
        };
        let plans = Table {
            at: edges.at + 28 * edges.count,
            count: (crate::word(words, 68) as usize).min(1088),
        };
        let memo = Table {
            at: plans.at + 40 * plans.count,
            count: (crate::word(words, 72) as usize).min(512),
        };
        Places {
            edges,
            plans,
            memo,
            end: memo.at + 12 * memo.count,
        }
    }
}
