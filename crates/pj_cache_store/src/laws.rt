//! Laws of caches under a name, each the contract of a call that does nothing.
ghost use Rattle.std.specs.Prelude.{◌≡◌, ◌≢◌, List, ℕ, Option, Some, None};
ghost use Rattle.pj_outside.specs.Files.{Files, reading_of};
ghost use Rattle.pj_classfile.specs.ClassOf.{folder_world};
ghost use Rattle.pj_names.specs.ClassName.{Name};
ghost use Rattle.pj_names.specs.declared.answer.Answer.{Answer};
ghost use Rattle.pj_cache.specs.declared.cache.Cache.{Cache};
ghost use Rattle.pj_cache_format.specs.Fitting.{FitsFields};
ghost use Rattle.pj_cache_format.specs.Ordered.{HasItsName};
ghost use Rattle.pj_fitting.specs.Fits.{CacheFits, IsFound, limit};
ghost use Rattle.pj_fitting.specs.Left.{File, IsLeftCache};
ghost use Rattle.pj_fitting.specs.Right.{Files as RuledFiles};
ghost use Rattle.pj_cache_store.specs.Leaving.{text_to_leave};
ghost use Rattle.pj_cache_store.specs.Loading.{IsLoaded};
ghost use Rattle.pj_cache_store.specs.declared.loading.Loaded.{Loaded};
ghost use Rattle.pj_cache_store.specs.declared.loading.Unused.TheVariants as unused;

/// What is loaded is the cache that a run finds in what stands under the name (`read`). Where the keeper failed, it is the one that a run finds where
/// nothing stands there (`not_read`).
pub fn what_is_loaded_is_found()
    ensures read { (content : Option (List ℕ)) (loaded : Loaded) → IsLoaded (reading_of limit content) loaded → loaded.unused ≢ Some unused.NotRead → IsFound content loaded.cache }
    ensures not_read { (content : Option (List ℕ)) (loaded : Loaded) → IsLoaded (reading_of limit content) loaded → loaded.unused ≡ Some unused.NotRead → IsFound None loaded.cache }
{}

/// Class folders answer a name by a class of that name, or by none. So a cache may keep what they answer.
pub fn class_folders_answer_by_name()
    ensures { (most : ℕ) (folders : List Files) (name : Name) → HasItsName name (folder_world most folders name) }
{}

/// What a run leaves under the name fits for every later run, where what it found fits, also where the cache is too long to be left.
pub fn left_texts_fit<R>()
    ensures { (files : RuledFiles R) (world : Name → Answer) (content : Option (List ℕ)) (found : Cache) (held : List R) (list : List File) (c : Cache)
        → CacheFits files content → IsFound content found → IsLeftCache files world found held list c → FitsFields c → CacheFits files (Some (text_to_leave c)) }
{}
