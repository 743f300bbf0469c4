//! The wording of the things that an explanation names.
ghost use Rattle.std.specs.Prelude.{◌≡◌, ◌++◌, OnOk};
ghost use Rattle.histar_raw_explain.specs.Texts.{Words, raw_words};

use histar_label::Category;
use histar_object::ObjId;
use histar_rawtext::push_number;
use std::alloc::AllocError;

/// Writes threads, objects and categories: by their numbers, or by known names.
pub trait Wording {
    // The wording of each.
    ghost words: { Self → Words };

    /// Adds a thread.
    fn push_thread(&self, text: &mut Vec<u8>, thread: ObjId) -> Result<(), AllocError>
        ensures { OnOk result (text.new.items ≡ text.old.items ++ (words self.now).thread thread) };

    /// Adds an object.
    fn push_object(&self, text: &mut Vec<u8>, object: ObjId) -> Result<(), AllocError>
        ensures { OnOk result (text.new.items ≡ text.old.items ++ (words self.now).object object) };

    /// Adds a category.
    fn push_category(&self, text: &mut Vec<u8>, category: Category) -> Result<(), AllocError>
        ensures { OnOk result (text.new.items ≡ text.old.items ++ (words self.now).category category) };

    /// Adds a category in a list of several.
    fn push_listed(&self, text: &mut Vec<u8>, category: Category) -> Result<(), AllocError>
        ensures { OnOk result (text.new.items ≡ text.old.items ++ (words self.now).listed category) };

    /// Adds an object of this kind that the call would make.
    fn push_made(&self, text: &mut Vec<u8>, kind: &str) -> Result<(), AllocError>
        ensures { OnOk result (text.new.items ≡ text.old.items ++ (words self.now).made kind.now) };
}

/// Writes each one by its number.
#[derive(Clone, Copy)]
pub struct ByNumber;

impl Wording for ByNumber {
    ghost words = { λ _. raw_words };

    fn push_thread(&self, text: &mut Vec<u8>, thread: ObjId) -> Result<(), AllocError> {
        text.extend_from_slice(b"thread ")?;
        push_number(*text.allocator(), text, thread.number())
    }

    fn push_object(&self, text: &mut Vec<u8>, object: ObjId) -> Result<(), AllocError> {
        text.extend_from_slice(b"object ")?;
        push_number(*text.allocator(), text, object.number())
    }

    fn push_category(&self, text: &mut Vec<u8>, category: Category) -> Result<(), AllocError> {
        text.extend_from_slice(b"category ")?;
        push_number(*text.allocator(), text, category.number())
    }

    fn push_listed(&self, text: &mut Vec<u8>, category: Category) -> Result<(), AllocError> {
        push_number(*text.allocator(), text, category.number())
    }

    fn push_made(&self, text: &mut Vec<u8>, kind: &str) -> Result<(), AllocError> {
        text.extend_from_slice(b"that ")?;
        text.extend_from_slice(kind.as_bytes())
    }
}
