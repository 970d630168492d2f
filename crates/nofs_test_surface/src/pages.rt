//! Files in pages.
ghost use Rattle.nofs_pages.specs.Singles.{SingleRests};
ghost use Rattle.nofs_pages.specs.Twins.{TwinRests};
ghost use Rattle.std.specs.Prelude.{length, ℕ, ◌*◌, ◌+◌, ◌<◌, ◌≡◌, ◌≤◌};

use crate::typed::typed;
use nofs_disk::Failed;
use nofs_filedisk::Positioned;
use nofs_pages::{
    AREA_AT, Current, ImageFile, Layout, MAGIC, PAGE_BYTES, PAIR_BYTES, PageStore, Paged, Single,
    TWIN_MAGIC, Twin,
};
use std::alloc::{AllocError, Global};

/// `nofs_pages::MAGIC`, `TWIN_MAGIC`, `PAGE_BYTES`, `PAIR_BYTES` and `AREA_AT`
pub fn pages_numbers() -> ([u64; 2], [usize; 3]) {
    ([MAGIC, TWIN_MAGIC], [PAGE_BYTES, PAIR_BYTES, AREA_AT])
}

/// `nofs_pages::sum_of`
pub fn pages_sum_of(bytes: &[u8], seed: u64) -> u64 {
    nofs_pages::sum_of(bytes, seed)
}

/// `nofs_pages::is_made`
pub fn pages_is_made(magic: u64, at: usize, page: &[u8], number: u64) -> bool
    requires page { length page.now ≡ 4096 }
    requires at { at ≤ 4096 }
{
    nofs_pages::is_made(magic, at, page, number)
}

/// `nofs_pages::Current`
pub fn current_variant(it: &Current) -> u8 {
    match it {
        Current::First => 0,
        Current::Second => 1,
        Current::Neither => 2,
    }
}

/// `nofs_pages::judge`
pub fn pages_judge(one: &[u8], two: &[u8], number: u64) -> Current
    requires one { length one.now ≡ 4096 }
    requires two { length two.now ≡ 4096 }
{
    nofs_pages::judge(one, two, number)
}

/// `nofs_pages::Layout`
pub fn layout_variant(it: &Layout) -> u8 {
    match it {
        Layout::Packed => 0,
        Layout::Paged => 1,
        Layout::Twin => 2,
    }
}

/// `nofs_pages::layout_of`
pub fn pages_layout_of<B: Positioned>(file: &mut B) -> Result<Layout, Failed> {
    nofs_pages::layout_of(file)
}

/// `nofs_pages::ImageFile`
pub fn image_file_variant<B: Positioned + Drop, P: Positioned + Drop, T: Positioned + Drop>(
    it: &ImageFile<B, P, T>,
) -> u8 {
    match it {
        ImageFile::Packed(file) => typed::<B>(file, 0),
        ImageFile::Paged(file) => typed::<P>(file, 1),
        ImageFile::Twin(file) => typed::<T>(file, 2),
    }
}

/// `nofs_pages::single_pages`
pub fn pages_single_pages<B: Positioned + Drop>(
    alloc: Global,
    file: B,
    fresh: bool,
) -> Result<Paged<Single<B>>, AllocError>
    requires { (p : ℕ) → SingleRests (B.state file) p }
{
    nofs_pages::single_pages(alloc, file, fresh)
}

/// `nofs_pages::twin_pages`
pub fn pages_twin_pages<B: Positioned + Drop>(
    alloc: Global,
    file: B,
    fresh: bool,
) -> Result<Paged<Twin<B>>, AllocError>
    requires { (p : ℕ) → TwinRests (B.state file) p }
{
    nofs_pages::twin_pages(alloc, file, fresh)
}

/// `nofs_pages::Single`
pub fn single_itself<B: Positioned + Drop>(it: Single<B>) -> Single<B> {
    it
}

/// `nofs_pages::Single::over`
pub fn single_over<B: Positioned + Drop>(
    alloc: Global,
    file: B,
    fresh: bool,
) -> Result<Single<B>, AllocError>
    requires { (p : ℕ) → SingleRests (B.state file) p }
{
    Single::over(alloc, file, fresh)
}

/// `nofs_pages::Single::into_file`
pub fn single_into_file<B: Positioned + Drop>(this: Single<B>) -> B {
    this.into_file()
}

/// `nofs_pages::Twin`
pub fn twin_itself<B: Positioned + Drop>(it: Twin<B>) -> Twin<B> {
    it
}

/// `nofs_pages::Twin::over`
pub fn twin_over<B: Positioned + Drop>(
    alloc: Global,
    file: B,
    fresh: bool,
) -> Result<Twin<B>, AllocError>
    requires { (p : ℕ) → TwinRests (B.state file) p }
{
    Twin::over(alloc, file, fresh)
}

/// `nofs_pages::Twin::into_file`
pub fn twin_into_file<B: Positioned + Drop>(this: Twin<B>) -> B {
    this.into_file()
}

/// `nofs_pages::Paged`
pub fn paged_itself<S: PageStore + Drop>(it: Paged<S>) -> Paged<S> {
    it
}

/// `nofs_pages::Paged::over`
pub fn paged_over<S: PageStore + Drop>(alloc: Global, store: S) -> Result<Paged<S>, AllocError>
    requires { (p : ℕ) → S.rests store p }
{
    Paged::over(alloc, store)
}

/// `nofs_pages::Paged::into_store`
pub fn paged_into_store<S: PageStore + Drop>(this: Paged<S>) -> S {
    this.into_store()
}

/// `nofs_pages::PageStore::show`
pub fn page_store_show<S: PageStore>(
    store: &mut S,
    first: u64,
    count: usize,
    into: &mut [u8],
    to: usize,
) -> Result<bool, Failed>
    requires place { first + count ≤ 349526 }
    requires count { count ≤ 32 }
    requires into { to + 3168 * count ≤ length into.old }
{
    store.show(first, count, into, to)
}

/// `nofs_pages::PageStore::put`
pub fn page_store_put<S: PageStore>(
    store: &mut S,
    first: u64,
    count: usize,
    areas: &[u8],
) -> Result<(), Failed>
    requires place { first + count ≤ 349526 }
    requires count { count ≤ 32 }
    requires areas { 3168 * count ≤ length areas.now }
    requires rests { (p : ℕ) → first ≤ p → p < first + count → ∥ S.rests store.old p ∥₁ }
{
    store.put(first, count, areas)
}

/// `nofs_pages::PageStore::sync`
pub fn page_store_sync<S: PageStore>(store: &mut S) -> Result<(), Failed> {
    store.sync()
}
