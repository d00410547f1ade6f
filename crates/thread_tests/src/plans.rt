//! Plans of derivations that are made for the tests, a journal, and the answers of builders.
use drv_graph::Plan;
use nix_drv::{ListSource, ListedFile, read, references, text_path};
use nix_names::{StoreDir, StorePath, make_path};
use ref_scan::Tree;
use sched_core::{Answer, Job, LeftOutput};
use sha2::{Digest, Sha256};
use std::alloc::{AllocError, Global};
use std::process::Abort;
use std::sync::Wait;
use std::test::Fail;
use std::thread::Threads;
use std::time::Clock;
use valid_table::Journal;

/// What a run by workers needs of a runtime.
pub(crate) trait Host: Threads + Wait + Clock + Abort + Sync {}

impl<R: Threads + Wait + Clock + Abort + Sync> Host for R {}

/// The system for which each run builds.
pub(crate) const SYSTEM: &[u8] = b"x86_64-linux";

/// A journal's text, with a path that no derivation has.
pub(crate) const BEFORE: &[u8] =
    b"realiser-journal 2\nA /nix/store/00000000000000000000000000000000-x -\n";

// SHA-256 of no bytes (FIPS 180-4), and what stands for a derivation with such an output.
const EMPTY: &str = "e3b0c44298fc1c149afbf4c8996fb92427ae41e4649b934ca495991b7852b855";

const FIXED: &[u8] =
    b"fixed:out:sha256:e3b0c44298fc1c149afbf4c8996fb92427ae41e4649b934ca495991b7852b855:";

/// Which derivations before it each derivation uses.
pub(crate) type Uses = &'static [&'static [usize]];

/// A base, two users of it, and a user of both.
pub(crate) const DIAMOND: Uses = &[&[], &[0], &[0], &[1, 2]];

/// Of each 64 derivations these fail.
pub(crate) const SOME: u64 = 0x0810_0040_0204_1000;

/// The store folder of all paths.
pub(crate) fn store_dir(alloc: Global) -> Result<StoreDir, Fail> {
    Ok(StoreDir::new(alloc, b"/nix/store")?)
}

/// The journal with this text.
pub(crate) fn journal(alloc: Global, text: &[u8]) -> Result<Journal, Fail> {
    Ok(Journal::read(alloc, &store_dir(alloc)?, text)?)
}

/// Derivations, each after those that it uses.
#[derive(Drop)]
pub(crate) struct Made {
    files: Vec<ListedFile>,
    paths: Vec<StorePath>,
}

fn file(alloc: Global, path: &[u8], bytes: &[u8]) -> Result<ListedFile, AllocError> {
    let path = Vec::from_slice(alloc, path)?;
    let bytes = Vec::from_slice(alloc, bytes)?;
    Ok(ListedFile { path, bytes })
}

// The path of a fixed output under a name, which is an empty file.
fn out_path(alloc: Global, name: &str) -> Result<StorePath, Fail> {
    let (inner, dir) = (Sha256::digest(FIXED), store_dir(alloc)?);
    let name = name.as_bytes();
    Ok(make_path(alloc, b"output:out", &inner, &dir, name)?)
}

// The path of a derivation's text under a name.
fn drv_path(alloc: Global, name: &str, text: &[u8]) -> Result<StorePath, Fail> {
    let (dir, drv) = (store_dir(alloc)?, read(alloc, text)?);
    let file = format!(in alloc; "{name}.drv")?;
    let refs = references(alloc, &dir, &drv)?;
    Ok(text_path(alloc, &dir, file.as_bytes(), text, &refs)?)
}

// The derivation under a name with a fixed output and these inputs.
fn derivation(alloc: Global, name: &str, inputs: &str) -> Result<(StorePath, String), Fail> {
    let out = out_path(alloc, name)?;
    let text = format!(in alloc;
        "Derive([(\"out\",\"{}\",\"sha256\",\"{EMPTY}\")],[{inputs}],[],\"x86_64-linux\",\"\",[],[])",
        out.as_str()
    )?;
    Ok((drv_path(alloc, name, text.as_bytes())?, text))
}

impl Made {
    /// No derivations.
    pub(crate) fn new(alloc: Global) -> Made {
        let (files, paths) = (Vec::new(alloc), Vec::new(alloc));
        Made { files, paths }
    }

    /// Adds the derivation with this text.
    pub(crate) fn push_text(
        &mut self,
        alloc: Global,
        path: StorePath,
        text: &[u8],
    ) -> Result<(), Fail> {
        self.files.push(file(alloc, path.text(), text)?)?;
        Ok(self.paths.push(path)?)
    }

    // The inputs with these numbers, as far as there are any, as a text has them.
    fn inputs(&self, alloc: Global, uses: &[usize]) -> Result<String, AllocError> {
        let mut used = Vec::new(alloc);
        for number in uses {
            if let Some(path) = self.paths.get(*number) {
                used.push(format!(in alloc; "(\"{}\",[\"out\"])", path.as_str())?)?;
            }
        }
        used.sort_unstable();
        used.join(alloc, ",")
    }

    /// Adds a derivation that uses those with these numbers, as far as there are any.
    pub(crate) fn push(&mut self, alloc: Global, uses: &[usize]) -> Result<(), Fail> {
        let name = format!(in alloc; "d{}", self.files.len())?;
        let inputs = self.inputs(alloc, uses)?;
        let (path, text) = derivation(alloc, &name, &inputs)?;
        self.push_text(alloc, path, text.as_bytes())
    }

    /// The plan with each of them as a root. They keep their numbers.
    pub(crate) fn plan(self, alloc: Global) -> Result<Plan, Fail> {
        let Made { files, paths } = self;
        let mut source = ListSource::new(alloc, files, Vec::new(alloc))?;
        Ok(Plan::load(alloc, &mut source, &store_dir(alloc)?, &paths)?)
    }
}

/// The plan of derivations that use these before them.
pub(crate) fn plan(alloc: Global, uses: &[&[usize]]) -> Result<Plan, Fail> {
    let mut made = Made::new(alloc);
    for uses in uses {
        made.push(alloc, uses)?;
    }
    made.plan(alloc)
}

/// The next pseudorandom number (Knuth's MMIX).
pub(crate) fn next(seed: u64) -> u64 {
    seed.wrapping_mul(6_364_136_223_846_793_005)
        .wrapping_add(1_442_695_040_888_963_407)
}

// One of eight derivations that many before this one, by the bits; or none.
fn back(number: usize, many: usize, bits: u64) -> usize {
    if bits & 8 == 0 {
        number.wrapping_sub(many).wrapping_sub(bits as usize & 7)
    } else {
        usize::MAX
    }
}

/// The plan of so many derivations, each of which uses at most two of those before it.
pub(crate) fn random_plan(alloc: Global, count: usize) -> Result<Plan, Fail> {
    let mut made = Made::new(alloc);
    let mut seed = 271_828;
    for number in 0..count {
        seed = next(seed);
        let uses = [back(number, 1, seed >> 30), back(number, 9, seed >> 40)];
        made.push(alloc, &uses)?;
    }
    made.plan(alloc)
}

/// The answer of a builder that leaves an empty file at each output.
pub(crate) fn left(alloc: Global, job: &Job) -> Result<Answer, AllocError> {
    let mut outputs = Vec::new(alloc);
    for _ in &job.outputs {
        outputs.push(Some(LeftOutput {
            tree: Tree::File(Vec::new(alloc)),
            others_may_write: false,
        }))?;
    }
    let status = Some(0);
    Ok(Answer { status, outputs })
}
