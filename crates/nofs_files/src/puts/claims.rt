//! The free blocks and the stamps that a Put claims, one to three.
ghost use Rattle.std.specs.Prelude.{◌≡◌, ◌^◌, ◌<◌, ◌≤◌, ◌+◌, None, Some, IfOk, IfErr, IfSome, length};
ghost use Rattle.nofs_bits.specs.Bits.{count_set};
ghost use Rattle.nofs_state.specs.Books.Maps.{claimed_books};
ghost use Rattle.nofs_files.specs.Puts.{AreThreeFree, AreTwoFree, HasRoom, IsFull, IsOneFree, MayClaim, NoRoom};
ghost use Rattle.nofs_files.specs.Puts.{one_claim, three_books};
ghost use Rattle.nofs_files.specs.Puts.{three_claims, two_books, two_claims};

use nofs_history::{Claims, NO_CLAIMS, Refusal};
use nofs_state::Books;

/// Two blocks that were examined and are free, the lesser first.
#[derive(Clone, Copy)]
pub struct TwoBlocks {
    pub first: u64,
    pub second: u64,
}

/// Three blocks that were examined and are free, in order.
#[derive(Clone, Copy)]
pub struct ThreeBlocks {
    pub first: u64,
    pub second: u64,
    pub third: u64,
}

// The least two blocks that were examined and are free; `None` exactly where there are fewer.
fn two_free_blocks(books: &Books) -> Option<TwoBlocks>
    requires { length books.now.free_blocks < 2 ^ 64 }
    ensures found { IfSome result (λ x. AreTwoFree books.now.free_blocks x.first x.second) }
    ensures none { result ≡ None → count_set books.now.free_blocks < 2 }
{
    let first = match books.free_blocks.next_set(0) {
        None => return None,
        Some(first) => first,
    };
    match books.free_blocks.next_set(first + 1) {
        None => None,
        Some(second) => Some(TwoBlocks { first, second }),
    }
}

// The least three blocks that were examined and are free; `None` exactly where there are fewer.
fn three_free_blocks(books: &Books) -> Option<ThreeBlocks>
    requires { length books.now.free_blocks < 2 ^ 64 }
    ensures found { IfSome result (λ x. AreThreeFree books.now.free_blocks x.first x.second x.third) }
    ensures none { result ≡ None → count_set books.now.free_blocks < 3 }
{
    let two = match two_free_blocks(books) {
        None => return None,
        Some(two) => two,
    };
    match books.free_blocks.next_set(two.second + 1) {
        None => None,
        Some(third) => Some(ThreeBlocks {
            first: two.first,
            second: two.second,
            third,
        }),
    }
}

// The refusal of a step that asks for more blocks than are free.
fn full(books: &Books, needed: u64) -> Refusal
    ensures { IsFull books.now needed result }
{
    Refusal::Full {
        needed,
        free: books.free_blocks.count(),
        unverified: books.unknown_blocks.count(),
        next: books.next_block(),
    }
}

// What was found, where there are stamps for it too.
fn with_stamps<T: Copy>(books: &Books, needed: u64, least: Option<T>) -> Result<T, Refusal>
    requires books { MayClaim books.now }
    requires needed { needed ≤ 3 }
    requires none { least ≡ None → count_set books.now.free_blocks < needed }
    requires some { IfSome least (λ x. needed ≤ count_set books.now.free_blocks) }
    ensures found { IfOk result (λ x. least ≡ Some x) }
    ensures room { IfOk result (λ x. HasRoom books.now needed) }
    ensures refused { IfErr result (NoRoom books.now needed) }
{
    match least {
        None => Err(full(books, needed)),
        Some(it) => {
            if books.serial + needed > 1 << 40 {
                return Err(Refusal::SerialsSpent);
            }
            Ok(it)
        }
    }
}

/// The least free block.
///
/// # Errors
///
/// `Full` where there is none, and `SerialsSpent` where no stamp is left.
pub(crate) fn one_block(books: &Books) -> Result<u64, Refusal>
    requires { MayClaim books.now }
    ensures found { IfOk result (IsOneFree books.now.free_blocks) }
    ensures room { IfOk result (λ x. HasRoom books.now 1) }
    ensures refused { IfErr result (NoRoom books.now 1) }
{
    with_stamps(books, 1, books.least_free_block())
}

/// The least two free blocks.
///
/// # Errors
///
/// Those of one block.
pub(crate) fn two_blocks(books: &Books) -> Result<TwoBlocks, Refusal>
    requires { MayClaim books.now }
    ensures found { IfOk result (λ x. AreTwoFree books.now.free_blocks x.first x.second) }
    ensures room { IfOk result (λ x. HasRoom books.now 2) }
    ensures refused { IfErr result (NoRoom books.now 2) }
{
    with_stamps(books, 2, two_free_blocks(books))
}

/// The least three free blocks.
///
/// # Errors
///
/// Those of one block.
pub(crate) fn three_blocks(books: &Books) -> Result<ThreeBlocks, Refusal>
    requires { MayClaim books.now }
    ensures found { IfOk result (λ x. AreThreeFree books.now.free_blocks x.first x.second x.third) }
    ensures room { IfOk result (λ x. HasRoom books.now 3) }
    ensures refused { IfErr result (NoRoom books.now 3) }
{
    with_stamps(books, 3, three_free_blocks(books))
}

/// Claims a block for the content of a slot.
pub(crate) fn claim_one(books: &mut Books, block: u64) -> Claims
    requires books { MayClaim books.old }
    requires block { IsOneFree books.old.free_blocks block }
    requires room { HasRoom books.old 1 }
    ensures claims { result ≡ one_claim books.old block }
    ensures books { books.new ≡ claimed_books books.old block }
{
    Claims {
        cell: books.claim_block(block),
        ..NO_CLAIMS
    }
}

/// Claims a block for the content of a slot, and one for the block of pointers above it.
pub(crate) fn claim_two(books: &mut Books, two: TwoBlocks) -> Claims
    requires books { MayClaim books.old }
    requires blocks { AreTwoFree books.old.free_blocks two.first two.second }
    requires room { HasRoom books.old 2 }
    ensures claims { result ≡ two_claims books.old two.first two.second }
    ensures books { books.new ≡ two_books books.old two.first two.second }
{
    let cell = books.claim_block(two.first);
    let leaf = books.claim_block(two.second);
    Claims {
        cell,
        leaf,
        ..NO_CLAIMS
    }
}

/// Claims a block for the content of a slot, one for the block of pointers above it, and one for the top.
pub(crate) fn claim_three(books: &mut Books, three: ThreeBlocks) -> Claims
    requires books { MayClaim books.old }
    requires blocks { AreThreeFree books.old.free_blocks three.first three.second three.third }
    requires room { HasRoom books.old 3 }
    ensures claims { result ≡ three_claims books.old three.first three.second three.third }
    ensures books { books.new ≡ three_books books.old three.first three.second three.third }
{
    let cell = books.claim_block(three.first);
    let leaf = books.claim_block(three.second);
    let top = books.claim_block(three.third);
    Claims {
        cell,
        leaf,
        top,
        ..NO_CLAIMS
    }
}
