// Laws of images.
ghost use Rattle.dkv_base.specs.declared.types.Profile.TheVariants.{Narrow};
ghost use Rattle.dkv_image.specs.Laws.{AfterIsImage, ImageIsSound, ImageIsSpelled, SoundIsImage, SpelledIsImage};

/// An image has one spelling: what is read as entries and messages is spelled so, and what is spelled is read again.
pub fn images_are_spelled()
    ensures spelled { ImageIsSpelled }
    ensures read { SpelledIsImage }
{}

/// What a state may hold is what an image of it may hold, and legal commits keep it so.
pub fn sound_states_have_images()
    ensures image { SoundIsImage }
    ensures sound { ImageIsSound }
    ensures after { AfterIsImage Narrow }
{}
