//! What each fault means, and what to do.
ghost use Rattle.std.specs.Prelude.{◌≡◌, string_bytes};

use std::alloc::{AllocError, Global};

// A fault, as the help explains it.
struct FaultHelp {
    // Its name, with the names of its values.
    name: &'static str,
    // What is wrong.
    meaning: &'static str,
    // What to do.
    remedy: &'static str,
}

// The faults, by their names.
const FAULTS: [FaultHelp; 33] = [
    FaultHelp {
        name: "BadHashPart",
        meaning: "DRV goes on after the store folder and a slash without 32 base-32 characters and a dash.",
        remedy: "Give the path that add-drv printed.",
    },
    FaultHelp {
        name: "BadLine(n)",
        meaning: "Line n of the journal has no form that it may have at its place.",
        remedy: "Does --journal name the journal? Take back what was changed in it, and remove whole entries alone.",
    },
    FaultHelp {
        name: "BadName",
        meaning: "The name is not well-formed.",
        remedy: "Choose a name of 1 to 211 letters, digits and +-._?= that does not begin with a dot and a dash.",
    },
    FaultHelp {
        name: "BadNar(place)",
        meaning: "The text on standard input is no archive: the byte at that place can't stand there.",
        remedy: "Make the archive again, by dump or by nix-store --dump.",
    },
    FaultHelp {
        name: "BadReference(text)",
        meaning: "An input, or a source, is no path of the store folder.",
        remedy: "Give the --store-dir that the derivation is for. Without it that is /nix/store.",
    },
    FaultHelp {
        name: "BadStoreDir",
        meaning: "The store folder is not well-formed.",
        remedy: "Give the store folder as an absolute path without a slash at its end.",
    },
    FaultHelp {
        name: "Differs",
        meaning: "What lies at a valid path has another digest or another archive than the journal says.",
        remedy: "Remove its entry and what lies there, and build it again.",
    },
    FaultHelp {
        name: "EnvMismatch(output)",
        meaning: "The value under the output's name in the environment is not the output's path.",
        remedy: "Leave the paths of outputs empty in a draft, also those in its environment.",
    },
    FaultHelp {
        name: "InUse",
        meaning: "Another run uses the store folder.",
        remedy: "Wait for the end of the other run, or give --wait.",
    },
    FaultHelp {
        name: "MissingFeature(feature)",
        meaning: "The derivation asks for a feature that this system does not offer.",
        remedy: "Give the feature by --system-features, if this system has it.",
    },
    FaultHelp {
        name: "MixedOutputs",
        meaning: "There is no output; or one is fixed, and is not the only one, named out.",
        remedy: "Make a fixed output the only one of its derivation, named out.",
    },
    FaultHelp {
        name: "NixStore",
        meaning: "Nix manages the store folder.",
        remedy: "Use a layer over the store of Nix, as docs/USING.md shows.",
    },
    FaultHelp {
        name: "NoMemory",
        meaning: "Memory was refused.",
        remedy: "Give the same command again, with fewer --jobs.",
    },
    FaultHelp {
        name: "NoRunner",
        meaning: "The runner is no absolute path of a file that may be executed.",
        remedy: "Give the absolute path of a file that may be executed.",
    },
    FaultHelp {
        name: "NotADrvName",
        meaning: "The name does not end in .drv.",
        remedy: "Give the path that add-drv printed.",
    },
    FaultHelp {
        name: "NotClosed(n)",
        meaning: "A reference in line n of the journal is registered neither in that entry nor before it.",
        remedy: "Does --journal name the journal? Take back what was changed in it, and remove whole entries alone.",
    },
    FaultHelp {
        name: "NotInStore",
        meaning: "DRV does not begin with the store folder and a slash.",
        remedy: "Give the --store-dir that the derivation is for. Without it that is /nix/store.",
    },
    FaultHelp {
        name: "NotValid",
        meaning: "The journal does not register this path.",
        remedy: "Give paths that the journal registers, or none, for all of them.",
    },
    FaultHelp {
        name: "NoView",
        meaning: "The view of the valid paths could not be opened.",
        remedy: "Give the same command again.",
    },
    FaultHelp {
        name: "Order(place)",
        meaning: "The list at that place of the text, which is counted from 0, is not sorted.",
        remedy: "Sort the list at that place of the text.",
    },
    FaultHelp {
        name: "OutputClash",
        meaning: "An output is also that of another derivation, which has other outputs besides.",
        remedy: "Leave one of the two derivations that share an output out of the plan.",
    },
    FaultHelp {
        name: "OutputMismatch(output, path)",
        meaning: "The output has another path than this one, which it must have.",
        remedy: "Leave the paths of outputs empty in a draft, also those in its environment.",
    },
    FaultHelp {
        name: "Syntax(place)",
        meaning: "The text is no derivation from that place on.",
        remedy: "Mend the text at that place, which is counted from 0.",
    },
    FaultHelp {
        name: "TextPathMismatch(path)",
        meaning: "The text is a derivation whose own path is this one.",
        remedy: "The file was changed: make it again by add-drv.",
    },
    FaultHelp {
        name: "ThreadFault",
        meaning: "No thread could be made, or all ended before the run was finished.",
        remedy: "Give the same command again.",
    },
    FaultHelp {
        name: "TooLong",
        meaning: "The file, or the text that it would get, has too many bytes.",
        remedy: "A derivation or a text has at most 4,194,304 bytes. A journal has at most 134,217,728: go on in a new store folder.",
    },
    FaultHelp {
        name: "TooMany",
        meaning: "More derivations are reached than a plan may have.",
        remedy: "Realise parts of the plan: it has at most 65,536 derivations.",
    },
    FaultHelp {
        name: "Twice(n)",
        meaning: "Line n of the journal registers a path that is registered before it.",
        remedy: "Does --journal name the journal? Take back what was changed in it, and remove whole entries alone.",
    },
    FaultHelp {
        name: "UnknownMethod(output)",
        meaning: "The derivation has an output with a hash that is not known. Without --profile nix that is r:sha1 or r:sha512, too.",
        remedy: "Give --profile nix, which takes all hashes that Nix takes.",
    },
    FaultHelp {
        name: "UnknownOutput(path, output)",
        meaning: "The input derivation at this path has no output of this name.",
        remedy: "Name an output that the input has.",
    },
    FaultHelp {
        name: "Unreadable",
        meaning: "The file is not there, is not a regular one, or cannot be read.",
        remedy: "Is the path right, is it that of a regular file, and may you read it?",
    },
    FaultHelp {
        name: "Unwritable",
        meaning: "A file cannot be written, standard output refuses a text, or the store folder cannot be locked.",
        remedy: "Is the disk full, is the folder there, and may you write to it?",
    },
    FaultHelp {
        name: "WrongVersion",
        meaning: "Line 1 of the journal names a version that is not known.",
        remedy: "Does --journal name the journal? Take back what was changed in it, and remove whole entries alone.",
    },
];

/// The table of faults: of each its name, then what is wrong and what to do, each on a line of its
/// own after four spaces. Only `new` makes one.
#[derive(Drop)]
pub struct FaultTable {
    text: String,
}

impl FaultTable {
    /// The table. Want of memory is the only error.
    pub fn new(alloc: Global) -> Result<FaultTable, AllocError> {
        let mut text = String::new(alloc);
        for fault in &FAULTS {
            write_fault(fault, &mut text)?;
        }
        Ok(FaultTable { text })
    }

    /// Its text.
    pub fn text(&self) -> &str
        ensures { result.now ≡ string_bytes self.now.text }
    {
        self.text.as_str()
    }
}

// Adds the lines of a fault.
fn write_fault(fault: &FaultHelp, text: &mut String) -> Result<(), AllocError> {
    text.push_str(fault.name)?;
    text.push_str("\n    ")?;
    text.push_str(fault.meaning)?;
    text.push_str("\n    ")?;
    text.push_str(fault.remedy)?;
    text.push_str("\n")
}
