//! The nodes of the tree of partial maps.

ghost use Rattle.std.specs.Prelude.{◌≡◌, ◌<◌, ◌≤◌, ◌≢◌, [], length, slice_index};
ghost use Rattle.yew_lad.specs.Kids.{Takes};
ghost use Rattle.yew_lad.specs.Nodes.{with_image};
ghost use Rattle.yew_lad.specs.NodeWords.{AreUnused};

use std::marker::Model;

/// A partial map: the images of the first vertices of the order in which the pattern's vertices are mapped, in this
/// order. Contracts see it as the list of these images.
#[derive(Drop)]
pub struct MapNode {
    /// The images, of which the first `count` have a meaning.
    images: [u16; 64],
    count: usize,
}

impl Model for MapNode {
    ghost use Rattle.std.specs.Prelude.{List, ℕ, take, ◌<◌, ◌≤◌};
    ghost use Rattle.std.specs.List.{AllByRecursion};

    ghost Value = { List ℕ };

    ghost view = { λ a. take a.count a.images };

    ghost invariant = { λ a. (a.count ≤ 64) × AllByRecursion (λ t. t < 1024) (take a.count a.images) };
}

impl MapNode {
    /// No vertex is mapped.
    pub(crate) fn root() -> MapNode
        ensures { result ≡ [] }
    {
        MapNode {
            images: [0; 64],
            count: 0,
        }
    }

    /// How many vertices are mapped.
    #[inline(always)]
    pub(crate) fn count(&self) -> usize
        ensures value { result ≡ length self.now }
        ensures small { result ≤ 64 }
    {
        self.count
    }

    /// The image of the vertex at a place.
    #[inline(always)]
    pub(crate) fn image(&self, place: usize) -> usize
        requires place { place < 64 }
        requires mapped { place < length self.now }
        ensures { result ≡ slice_index self.now place }
    {
        self.images[place] as usize
    }

    /// Takes the images out of the set of all target vertices. Bit t % 64 of word t / 64 says whether vertex t is in a set.
    #[inline(always)]
    pub(crate) fn take_from(&self, words: &mut [u64; 16])
        requires { AreUnused [] words.old }
        ensures { AreUnused self.now words.new }
    {
        for place in 0..self.count {
            let image = self.images[place] as usize;
            words[image / 64] &= !(1 << (image % 64));
        }
    }

    /// The partial map in which the next vertex goes to `image` too. Where it is stored here it has no meaning, and is
    /// copied with the others.
    #[inline(always)]
    pub(crate) fn child(&mut self, image: usize) -> MapNode
        requires count { length self.old < 64 }
        requires image { image < 1024 }
        ensures child { result ≡ with_image self.old image }
        ensures same { self.new ≡ self.old }
    {
        self.images[self.count] = image as u16;
        MapNode {
            images: self.images,
            count: self.count + 1,
        }
    }
}

/// A word of a set of target vertices: bit k says whether vertex 64 * `number` + k is in the set.
#[derive(Clone, Copy)]
pub(crate) struct VertexWord {
    pub(crate) number: usize,
    pub(crate) bits: u64,
}

/// The children of a partial map that were not given yet. They send the next vertex to the members of a word, and after
/// these to the candidates past it, which are computed when they are reached. The word is empty only where none is left.
#[derive(Drop)]
pub struct MapKids {
    parent: MapNode,
    word: VertexWord,
}

impl Model for MapKids {
    ghost use Rattle.std.specs.Prelude.{◌<◌};
    ghost use Rattle.yew_lad.specs.Kids.{Kids};

    ghost Value = { Kids };

    ghost view = { λ a. record { parent = a.parent; number = a.word.number; bits = a.word.bits } };

    ghost invariant = { λ a. a.word.number < 16 };
}

impl MapKids {
    /// The children of a partial map that send the next vertex to the members of a word and to the candidates past it.
    #[inline(always)]
    pub(crate) fn new(parent: MapNode, word: VertexWord) -> MapKids
        requires { word.number < 16 }
        ensures { result ≡ record { parent = parent; number = word.number; bits = word.bits } }
    {
        MapKids { parent, word }
    }

    /// The partial map whose children these are.
    #[inline(always)]
    pub(crate) fn parent(&self) -> &MapNode
        ensures { result.now ≡ self.now.parent }
    {
        &self.parent
    }

    /// The word from which the next child is taken.
    #[inline(always)]
    pub(crate) fn word(&self) -> VertexWord
        ensures number { result.number ≡ self.now.number }
        ensures bits { result.bits ≡ self.now.bits }
        ensures small { result.number < 16 }
    {
        self.word
    }

    /// Goes on to another word.
    #[inline(always)]
    pub(crate) fn go_on(&mut self, word: VertexWord)
        requires { word.number < 16 }
        ensures { self.new ≡ record { parent = self.old.parent; number = word.number; bits = word.bits } }
    {
        self.word = word;
    }

    /// Takes the least vertex off the word.
    #[inline(always)]
    pub(crate) fn take(&mut self) -> usize
        requires some { self.old.bits ≢ 0 }
        ensures taken { Takes self.old result self.new }
        ensures small { result < 1024 }
    {
        let bits = self.word.bits;
        self.word.bits = bits & (bits - 1);
        64 * self.word.number + bits.trailing_zeros() as usize
    }

    /// The child that sends the next vertex to `image`.
    #[inline(always)]
    pub(crate) fn child(&mut self, image: usize) -> MapNode
        requires count { length self.old.parent < 64 }
        requires image { image < 1024 }
        ensures child { result ≡ with_image self.old.parent image }
        ensures same { self.new ≡ self.old }
    {
        self.parent.child(image)
    }
}
