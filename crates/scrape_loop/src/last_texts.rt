//! The raw texts that a life knows, as those that a page may be read like.
ghost use Rattle.std.specs.Prelude.{◌≡◌, cond};

use expo_reader::RawTexts;
use label_set::Form;
use series_cache::SeriesCache;
use std::marker::Model;

/// The raw texts of the last good scrape of a life, all of one form.
#[derive(Drop)]
pub struct LastTexts<'a> {
    pub(crate) cache: &'a SeriesCache,
    pub(crate) form: Form,
}

impl<'a> Model for LastTexts<'a> {
    ghost use Rattle.label_set.specs.declared.forms.Form.{Form};
    ghost use Rattle.series_cache.specs.Caches.{CacheView};

    ghost Value = { CacheView × Form };

    ghost use Rattle.scrape_loop.specs.Raw.{AreRaw};

    ghost view = { λ t. (t.cache.now, t.form) };

    ghost invariant = { λ t. AreRaw t.form t.cache.now };
}

impl<'a> RawTexts for LastTexts<'a> {
    ghost use Rattle.scrape_loop.specs.Fresh.{texts_in};

    ghost texts = { λ t. texts_in t.0 };

    ghost form_of = { λ t. t.1 };

    fn form(&self) -> Form {
        self.form
    }

    fn text_at(&self, place: usize) -> Option<&[u8]> {
        self.cache.text_at(place)
    }
}

/// The form of the texts that are known after a scrape: that of its body where it is good, and else the one of before.
pub fn form_after(good: bool, form: Form, before: Form) -> Form
    ensures { result ≡ cond good form before }
{
    if good { form } else { before }
}
