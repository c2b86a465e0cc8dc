// The words of a script.
ghost use Rattle.scripts.specs.Words.{SizeIn};

use shelf::Size;

// The size that three words write in decimal: the cards, the width and the places; none where one of them is no number below 2 ^ 32.
pub fn size_of(words: [&str; 3]) -> Option<Size>
    ensures { SizeIn words.entry result }
{
    let [cards, width, places] = words;
    Some(Size {
        cards: cards.parse().ok()?,
        width: width.parse().ok()?,
        places: places.parse().ok()?,
    })
}
