//! Laws over the definitions of store paths, each on the contract of a function that does nothing.
ghost use Rattle.std.specs.Prelude.{◌≡◌, ◌↔◌, ◌<◌, ℕ, List, None, IsTrue};
ghost use Rattle.std.specs.Cmp.Lexicographic.{slice_cmp};
ghost use Rattle.std.specs.Ordering.{nat_cmp};
ghost use Rattle.std.specs.declared.cmp.Ordering.TheVariants.{Less};
ghost use Rattle.nix_names.specs.Keys.{key_of};
ghost use Rattle.nix_names.specs.Names.{is_name};
ghost use Rattle.nix_names.specs.StorePaths.{IsPathOf, IsStorePath, hash_part_of, is_hash_part, name_of, path_fault, path_text, store_path};

/// The hash part and the name of a path are those that it was made of.
pub fn parts_are_found()
    ensures { (dir hash name : List ℕ) → IsTrue (is_hash_part hash) → IsTrue (is_name name)
        → (hash_part_of (path_text dir hash name) ≡ hash)
        × (name_of (path_text dir hash name) ≡ name) }
{}

/// One text is the path of one folder, hash part and name only.
pub fn text_tells_the_parts()
    ensures { (dir hash name other part title : List ℕ)
        → IsTrue (is_hash_part hash) → IsTrue (is_name name)
        → IsTrue (is_hash_part part) → IsTrue (is_name title)
        → path_text dir hash name ≡ path_text other part title
        → (dir ≡ other) × (hash ≡ part) × (name ≡ title) }
{}

/// Nothing is wrong with a text exactly where it is a path of the folder.
pub fn only_paths_are_accepted()
    ensures { (dir text : List ℕ) → (path_fault dir text ≡ None) ↔ IsPathOf dir text }
{}

/// The store path of a name is a path of its folder.
pub fn made_paths_are_paths()
    ensures { (kind inner dir name : List ℕ) → IsTrue (is_name name)
        → IsPathOf dir (store_path kind inner dir name) }
{}

/// Of two paths of one folder, the one with the lesser key is the lesser.
pub fn lesser_key_is_of_the_lesser_path()
    ensures { (dir path other : List ℕ) → IsPathOf dir path → IsPathOf dir other
        → key_of path < key_of other → slice_cmp nat_cmp path other ≡ Less }
{}

/// Of two store paths, the one with the lesser key has the lesser hash part.
pub fn lesser_key_is_of_the_lesser_hash_part()
    ensures { (path other : List ℕ) → IsStorePath path → IsStorePath other
        → key_of path < key_of other
        → slice_cmp nat_cmp (hash_part_of path) (hash_part_of other) ≡ Less }
{}
